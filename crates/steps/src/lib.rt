// The writer's steps as definitions, with the theorems about them: `specs/` and `proofs/`. Code and definitions share the stages.
// What is open in a message that is being written.
#![tactic(auto)]

#[derive(Clone, Copy)]
pub enum Stage {
    Closed,
    Call,
    Array,
    Reply,
    Table,
    Row,
}
