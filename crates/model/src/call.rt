// The calls that are judged by the phase.
#[derive(Clone, Copy)]
pub enum Call {
    Read,
    Write,
    Begin,
    Keep,
    Copy,
    Settle,
    Finish,
}
