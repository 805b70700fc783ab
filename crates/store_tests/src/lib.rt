// Cases of the stores over supplied memory; nothing here is to use.
#![tactic(auto)]

#[cfg(test)]
mod archives;
#[cfg(test)]
mod common;
#[cfg(test)]
mod flats;
#[cfg(test)]
mod pools;
