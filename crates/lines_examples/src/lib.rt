// Published transactions, read from their images and turned into lines.
#![tactic(auto)]

#[cfg(test)]
mod tests;
