// Cases of the grids over tables; nothing here is to use.
#![tactic(auto)]

#[cfg(test)]
mod cases;
#[cfg(test)]
mod indices;
#[cfg(test)]
mod limits;
#[cfg(test)]
mod makings;
