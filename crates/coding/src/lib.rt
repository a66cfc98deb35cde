// What a word is: polynomials over bits, the remainder of a division, the check and the word of a content. The definitions
// are in specs/, what is proved of them is in proofs/, and the code that goes by them is in the crates above.
#![tactic(auto)]
