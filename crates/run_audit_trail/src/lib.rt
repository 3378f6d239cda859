// Theorems alone: the ledger that `sdc2d_thermo::mfe_configuration` leaves is an audit trail, and
// its layout is one of least energy. specs/AuditTrail.antt says it, proofs/ prove it.
#![tactic(auto)]
