//! Laws of trees: each contract states one, and the body does nothing.

ghost use Rattle.std.specs.Prelude.{ℕ, ◌≤◌, ◌+◌, ◌*◌, List, []};
ghost use Rattle.vhdl_lexer.specs.declared.language.Language.{Language};
ghost use Rattle.vhdl_lexer.specs.declared.language.Language.TheVariants.{Wide};
ghost use Rattle.vhdl_tree.specs.declared.expression.Expr as code;
ghost use Rattle.vhdl_tree.specs.declared.unit.File as file;
ghost use Rattle.vhdl_tree.specs.Height.{height, file_height};
ghost use Rattle.vhdl_tree.specs.Levels.{IsShallow};
ghost use Rattle.vhdl_tree.specs.Lexeme.{Lexeme};
ghost use Rattle.vhdl_tree.specs.Nesting.{nesting};
ghost use Rattle.vhdl_tree.specs.Pieces.{Spells};
ghost use Rattle.vhdl_tree.specs.Tree as t;
ghost use Rattle.vhdl_tree.specs.View.{view, file_view};
ghost use Rattle.vhdl_tree.specs.grammar.Expressions.{IsExprIn};
ghost use Rattle.vhdl_tree.specs.grammar.Units.{IsFile, IsFileIn, spell_file};

/// A well-formed expression is no higher than eight for each of its parentheses that stand one in
/// another, and eight: so a walk over it needs a stack in proportion to these alone, however long
/// its chains of operators are.
pub fn height_is_bounded()
    ensures { (language : Language) → (e : code.Expr) → IsExprIn language (view e)
        → height e ≤ 8 * (nesting (view e) + 1) }
{}

/// The tree of a file is no higher than eight for each level that is open at once in the tokens
/// that it spells, and twelve, where it is well formed in the wider language, and so in either.
pub fn file_height_is_bounded()
    ensures { (f : file.File) → (n : ℕ) → (ts : List Lexeme) → IsFileIn Wide (file_view f)
        → Spells (spell_file (file_view f)) ts [] → IsShallow n ts → file_height f ≤ 8 * n + 12 }
{}

/// Each file of the narrower language is one of the wider.
pub fn narrow_files_are_wide()
    ensures { (f : t.File) → IsFile f → IsFileIn Wide f }
{}
