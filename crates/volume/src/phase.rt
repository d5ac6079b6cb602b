// Phases of a volume, and the calls that are judged by them.
pub use model::call::Call;
pub use model::phase::Phase;
