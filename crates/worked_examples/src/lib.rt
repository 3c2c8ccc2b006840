// Tests of judging: worked examples of published documents, brought to whole steps, and every refusal. What is expected is what the
// documents print, or follows from the rules by hand.
#![tactic(auto)]

#[cfg(test)]
mod cases;
#[cfg(test)]
mod ilac_g8;
#[cfg(test)]
mod jcgm_106;
#[cfg(test)]
mod refusals;
