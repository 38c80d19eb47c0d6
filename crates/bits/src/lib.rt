// Bits of numbers: definitions and laws alone, which every layer above cites. It has no function: masks and shifts are
// the language's own, and the laws tie them to bits.
#![tactic(auto)]
