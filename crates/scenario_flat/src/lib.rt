//! What a scenario runs over one flat memory: its regions, the walks of its requests, and the states that its orders of
//! iterations lead to. Definitions alone: read `specs/Runs.antt`.
#![tactic(auto)]
