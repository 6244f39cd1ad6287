//! What the workers of a step are called with.

use pic_num::Workers;

/// Who does the work of a step: what starts threads, the gate that each worker passes, and how many
/// workers there are.
#[derive(Drop)]
pub struct Team<'a, H, G> {
    pub rt: &'a H,
    pub gate: &'a G,
    pub workers: Workers,
}
