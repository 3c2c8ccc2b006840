// The table at the engine's own two kinds of entry, filled, emptied and refilled, and the requirement sheet: tests.
#![tactic(auto)]

#[cfg(test)]
mod items;
#[cfg(test)]
mod requirements;
#[cfg(test)]
mod script;
#[cfg(test)]
mod sheets;
