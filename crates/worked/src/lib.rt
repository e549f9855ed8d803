//! Worked examples: theorems about the definitions, in two tables.
//!
//! Public: `rows`, whose contract is the table of the ciphers, and `rules_rows`, whose contract is the table of curves, bundles and runs.
#![tactic(auto)]

ghost use Rattle.std.specs.Prelude.{◌≡◌};
ghost use Rattle.worked.specs.RulesTable.{RulesTable};
ghost use Rattle.worked.specs.Table.{Table};

// A function for each table: each counts its own rows, so that a row left out is seen.

/// The rows of the table hold; it answers how many there are.
pub fn rows() -> u8
    ensures table { Table }
    ensures count { result ≡ 6 }
{
    6
}

/// The rows of the table of curves, bundles and runs hold; it answers how many there are.
pub fn rules_rows() -> u8
    ensures table { RulesTable }
    ensures count { result ≡ 14 }
{
    14
}
