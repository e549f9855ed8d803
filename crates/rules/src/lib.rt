//! The rules of registers, bundles, parcels and runs of calls, and what is promised of them.
//!
//! A crate of definitions and theorems: `specs/` says what each call does to a register, what a bundle and a parcel
//! are, and what is promised of every list of calls. A function here does nothing; its contract is a theorem, proved
//! for every two ciphers that undo what they do.
//! Public: the promises `withdrawn_stays_withdrawn`, `starting_blocks_differ`, `flows_come_from_a_publish`; and the
//! laws `calls_carry_runs_on`, `calls_are_pinned`, `calls_keep_registers_lawful`, `refused_calls_change_nothing`,
//! `serials_count_seals`, `room_is_weighed_after_withdrawals`, `bundles_say_one_thing`, `sealed_parcels_are_read`.
#![tactic(auto)]

ghost use Rattle.rules.specs.Laws.{EveryRun, EveryCall, Pinned, StaysLawful, RefusedKeeps, SerialCounts, RoomExactly, BundleLaws, ParcelLaws};
ghost use Rattle.rules.specs.Runs.{WithdrawnStaysWithdrawn, StartingBlocksDiffer, FlowsComeFromAPublish};

/// Once a register knows a withdrawal, each later convert of that number there says so and writes no flow, whichever bytes have reached it.
pub fn withdrawn_stays_withdrawn()
    ensures { EveryRun WithdrawnStaysWithdrawn }
{}

/// No two accepted seals have the same starting block.
pub fn starting_blocks_differ()
    ensures { EveryRun StartingBlocksDiffer }
{}

/// Where each accepted parcel came from a seal, convert says withdrawn exactly where the withdrawal is known, and flows are those of a publish.
pub fn flows_come_from_a_publish()
    ensures { EveryRun FlowsComeFromAPublish }
{}

/// From a call's relation alone, every run goes on with it, no other register is touched, and the three promises hold of the longer list.
pub fn calls_carry_runs_on()
    ensures { EveryCall }
{}

/// One state and one set of arguments have one answer, one content of what was lent and one state after.
pub fn calls_are_pinned()
    ensures { Pinned }
{}

/// A call leaves a lawful register lawful.
pub fn calls_keep_registers_lawful()
    ensures { StaysLawful }
{}

/// A refused call leaves the register and what it was lent as they were, but for the work buffer, which is zero.
pub fn refused_calls_change_nothing()
    ensures { RefusedKeeps }
{}

/// In every run, a register's serial is the number of its accepted seals so far.
pub fn serials_count_seals()
    ensures { SerialCounts }
{}

/// Taking in is refused for want of places exactly where more than 32 curves would be in force afterwards.
pub fn room_is_weighed_after_withdrawals()
    ensures { RoomExactly }
{}

/// Two lawful lists with one encoding are the same, a register's bundle is its copy, and there is one padding.
pub fn bundles_say_one_thing()
    ensures { BundleLaws }
{}

/// What a lawful register seals is a parcel, well tagged, that reads as its bundle; a register that opens it holds the join of both.
pub fn sealed_parcels_are_read()
    ensures { ParcelLaws }
{}
