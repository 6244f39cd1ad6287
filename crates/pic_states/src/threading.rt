//! What a step's threads need beside their number.

/// What starts a run's threads, and the gate that its steps pass.
#[derive(Drop)]
pub struct Threading<'a, H, G> {
    pub rt: &'a H,
    pub gate: &'a G,
}
