// The delay file: its rules and their laws (document 02, §2). No code: the code that is proved equal to them stands in delay_files.
#![tactic(auto)]
