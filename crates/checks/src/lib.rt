// Tests of the volume and of all that it stands on: the worked examples of docs/, each refusal, and what cuts and losses leave.
// A test mostly takes down what a run answers, by name, and compares it with what is due.
#![tactic(auto)]

#[cfg(test)]
mod cuts;
#[cfg(test)]
mod distances;
#[cfg(test)]
mod heads;
#[cfg(test)]
mod losses;
#[cfg(test)]
mod places;
#[cfg(test)]
mod refusals;
#[cfg(test)]
mod renamed;
#[cfg(test)]
mod setup;
#[cfg(test)]
mod shelves;
#[cfg(test)]
mod spent;
