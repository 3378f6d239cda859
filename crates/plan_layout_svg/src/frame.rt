// What stands before and after the bays in a drawing, put at a place of a text as in lib.rt.
ghost use Rattle.text_put.specs.Puts.{Put};
ghost use Rattle.plan_layout_svg.specs.Frame.{style, head, foot};

use text_energy::put_energy;
use text_put::{put_form, put_text};

// All that stands before the bays.
pub(crate) fn put_head(width: u64, height: u64, energy: f64, out: &mut [u8], at: usize) -> usize
    ensures { Put out.old at (head width height energy) result out.new }
{
    let look = put_form(
        out,
        at,
        b"<svg xmlns=\"http://www.w3.org/2000/svg\" width=\"$\" height=\"@\" viewBox=\"0 0 $ @\">\n",
        width,
        height,
    );
    let title = put_style(out, look);
    let number = put_text(
        out,
        title,
        b"<text class=\"energy\" x=\"24\" y=\"40\">Energy ",
    );
    let end = put_energy(out, number, energy);
    put_text(out, end, b" kcal/mol</text>\n")
}

// How letters and squares look, and the ground.
fn put_style(out: &mut [u8], at: usize) -> usize
    ensures { Put out.old at style result out.new }
{
    let squares = put_text(
        out,
        at,
        b"<style>\ntext{font-family:sans-serif;fill:#1d2733}\n.energy{font-size:18px;font-weight:bold}\n.key{font-size:14px}\n.name{text-anchor:middle}\n",
    );
    let marks = put_text(
        out,
        squares,
        b"rect{fill:#fff;stroke:#b4bcc8}\n.tile{fill:#e6eef8}\n.ground{stroke:none}\n",
    );
    let ground = put_text(
        out,
        marks,
        b".restricted{stroke:#b45309;stroke-width:2;stroke-dasharray:7 4}\n.seed{stroke:#1e3a6e;stroke-width:5}\n",
    );
    put_text(
        out,
        ground,
        b"</style>\n<rect class=\"ground\" width=\"100%\" height=\"100%\"/>\n",
    )
}

// All that stands after the bays, from so many pixels down.
pub(crate) fn put_foot(top: u64, out: &mut [u8], at: usize) -> usize
    ensures { Put out.old at (foot top) result out.new }
{
    let seed = put_form(out, at, b"<g transform=\"translate($,@)\">\n", 26, top);
    let restricted = put_text(
        out,
        seed,
        b"<rect class=\"seed\" width=\"20\" height=\"20\"/><text class=\"key\" x=\"30\" y=\"15\">seed</text>\n",
    );
    put_text(
        out,
        restricted,
        b"<rect class=\"restricted\" x=\"86\" width=\"20\" height=\"20\"/><text class=\"key\" x=\"116\" y=\"15\">restricted</text>\n</g>\n</svg>\n",
    )
}
