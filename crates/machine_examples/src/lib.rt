// Images compiled, and machines at work on them.
#![tactic(auto)]

#[cfg(test)]
mod compiled;
#[cfg(test)]
mod images;
#[cfg(test)]
mod pipelined;
#[cfg(test)]
mod serially;
