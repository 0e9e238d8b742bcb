// What asks something of its caller: tests of the lengths, and a proposed record's scans and plan.
pub mod proposal;
pub mod scans;
