// Both fact books at the limits of attributes and numbers, and the packed record at those of its layout.
#![tactic(auto)]

#[cfg(test)]
mod books;
#[cfg(test)]
mod checks;
#[cfg(test)]
mod records;
