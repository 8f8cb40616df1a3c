// What a checker means, on plain lists with no cell in them: forms, lines, levels, records, refusals, truth and histories. No code.
#![tactic(auto)]
