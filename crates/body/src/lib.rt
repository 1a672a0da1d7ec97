// No code: what the bytes of the typed bodies are, which readers and the writer share, is in specs/.
#![tactic(auto)]
