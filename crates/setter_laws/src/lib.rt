// What users of the setters rely on: what is shown after one, in which order they may come, and when one is refused. Definitions and laws only.
#![tactic(auto)]
