// The dossier: its records, their bytes, and the judgement of any bytes; definitions and theorems only.
#![tactic(auto)]
