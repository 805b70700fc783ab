// Cases of the grids and of the questions over index lists; nothing here is to use.
#![tactic(auto)]

#[cfg(test)]
mod answers;
#[cfg(test)]
mod limits;
#[cfg(test)]
mod makings;
#[cfg(test)]
mod regions;
#[cfg(test)]
mod sizes;
