ghost use Rattle.std.specs.Prelude.{ℕ, List};
ghost use Rattle.row_values.specs.Elements.{AllOf};
ghost use Rattle.model_runs.specs.Courses.{ScriptAsked};
ghost use Rattle.script_lang.specs.declared.script.ScriptLine.{ScriptLine};
ghost use Rattle.script_lang.specs.Grammar.{IsScript};
ghost use Rattle.script_asked.specs.Numbered.{numbered_of};

/// Each command of a script keeps the bounds under which the cluster may be asked what it begins
/// with, whatever the script's reading is then.
pub fn what_a_script_spells_may_be_asked()
    ensures asked { (slots : ℕ) (text : List ℕ) (lines : List ScriptLine) → IsScript slots text lines
        → AllOf (λ c. ScriptAsked slots c.command) (numbered_of lines) }
{}
