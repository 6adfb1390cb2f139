// The cases that document 01 marks P (specs/), one as document 02 corrects it, proved by computation (proofs/). No code.
#![tactic(auto)]
