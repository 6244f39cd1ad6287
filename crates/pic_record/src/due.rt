//! Which frames of a dump are due.

ghost use Rattle.std.specs.Prelude.{◌≡◌, ◌≤◌, IfSome};
ghost use Rattle.pic_record.specs.Due.{is_due, due_after};
ghost use Rattle.pic_header.specs.Limits.{most_steps};

/// Whether a frame is due after this step.
pub fn is_due(steps: u32, every: u32, step: u32) -> bool
    requires { 1 ≤ every }
    ensures { result ≡ is_due steps every step }
{
    step == steps || step % every == 0
}

/// The step of the next frame, after the frame of such a step or at the start.
pub fn due_after(steps: u32, every: u32, last: Option<u32>) -> Option<u32>
    requires steps { steps ≤ most_steps }
    requires every { every ≤ most_steps }
    ensures value { result ≡ due_after steps every last }
    ensures most { IfSome result (λ step. step ≤ steps) }
{
    let Some(last) = last else {
        return Some(0);
    };
    if last < steps {
        return Some((last + every).min(steps));
    }
    None
}
