// The tree file: its bytes, and the program that they stand for. `specs/Decode.antt` says which bytes are a tree.
#![tactic(auto)]
