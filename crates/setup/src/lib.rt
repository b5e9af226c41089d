// A setup: its content, its rules, its tables and the call that reads it, as definitions and laws, which specs/ has; and its ten tables as they are lent.
#![tactic(auto)]

pub mod lent;
