// Phases of a volume.
use answer::Refusal;

// Where a volume stands in its life. A volume whose create or open was refused is shut.
#[derive(Clone, Copy)]
pub enum Phase {
    // not moving: the source is in force
    Before,
    // between begin and finish: source and target are in force
    Moving,
    // finished, and not opened anew: the target is in force
    After,
    // of no use but for its shelf; its calls answer this
    Shut(Refusal),
}
