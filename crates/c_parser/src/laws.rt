//! Laws of the grammar of files, each the contract of a function with nothing to do.

ghost use Rattle.std.specs.Prelude.{◌≡◌, false, List, Result, Err, ◌⊎◌};
ghost use Rattle.tm_terms.specs.declared.places.Place.{Place};
ghost use Rattle.tm_terms.specs.declared.refusals.Refusal.{Refusal};
ghost use Rattle.tm_terms.specs.declared.tokens.Name.{Name};
ghost use Rattle.tm_terms.specs.declared.tokens.Token.{Token};
ghost use Rattle.tm_terms.specs.ExprTrees.{Tree};
ghost use Rattle.tm_trees.specs.FileTrees.{StatementTree, an_if_else, ItemTree};
ghost use Rattle.tm_trees.specs.FileSpelling.{SpellsStatement, SpellsFile};
ghost use Rattle.tm_trees.specs.OpenIfs.{ends_with_open_if};
ghost use Rattle.tm_trees.specs.Parsing.{syntax_error, Parses};

/// No text has two files.
pub fn one_file()
    ensures { (items others : List ItemTree) (ts : List Token) → SpellsFile items ts → SpellsFile others ts → items
        ≡ others }
{}

/// Every text has an answer.
pub fn some_answer()
    ensures { (tokens : List Token) → (answer : Result (List ItemTree) Refusal) × Parses tokens answer }
{}

/// Tokens have one answer, but for the place of a syntax error.
pub fn one_answer()
    ensures { (tokens : List Token) (a b : Result (List ItemTree) Refusal) → Parses tokens a → Parses tokens b →
        (a ≡ b) ⊎ ((p : Place) × (q : Place) × (a ≡ Err (syntax_error p)) × (b ≡ Err (syntax_error q))) }
{}

/// Tokens begin with at most one statement.
pub fn one_statement()
    ensures { (types : List Name) (s t : StatementTree) (ts rest after : List Token) →
        SpellsStatement types s ts rest → SpellsStatement types t ts after → (s ≡ t) × (rest ≡ after) }
{}

/// An `else` belongs to the nearest `if` that has none (C99 6.8.4.1).
pub fn else_to_the_nearest_if()
    ensures { (types : List Name) (c : Tree) (s r : StatementTree) (ts rest : List Token) →
        SpellsStatement types (an_if_else c s r) ts rest → ends_with_open_if s ≡ false }
{}
