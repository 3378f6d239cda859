// What is asked of a bay's list: whether it allows a strand, and whether it names nothing but 0.
#![tactic(auto)]

ghost use Rattle.std.specs.Prelude.{◌≡◌};
ghost use Rattle.bay_lists.specs.Lists.{list_allows};
ghost use Rattle.plan_list_readers.specs.Reading.{only_zeros};

// Whether every number of a list is 0.
pub fn only_zeros(list: &[u32]) -> bool
    ensures { result ≡ only_zeros list.now }
{
    list.iter().all(|&tile| tile == 0)
}

// Whether a list allows a strand: an empty one allows every strand, another those that it names.
pub fn list_allows(list: &[u32], strand: u32) -> bool
    ensures { result ≡ list_allows list.now strand }
{
    list.is_empty() || list.contains(&strand)
}
