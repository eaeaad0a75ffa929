// Tests of what no program calls: the functions of `mycielski` that fill the rows a caller lends, those that return new ones, and the walk of `steps` that
// tells nothing where the budget has no more. What each answers is held to document 01's words, gone through entry by entry, on every list of few entries.
#![tactic(auto)]

#[cfg(test)]
mod lists;
mod own;
#[cfg(test)]
mod rounds;
#[cfg(test)]
mod walks;
