//! The rules whose parts stand in lists.
ghost use Rattle.std.specs.Prelude.{◌≡◌, ℕ, List, [], ◌∷◌, ◌++◌};

use crate::changes::{change, is_change_next, setting, tuple};
use crate::cursor::{ReadError, name};
use crate::definitions::{is_mark_next, mark, part};
use crate::lists::{Rule, Told};
use crate::operands::{column, literal};
use crate::queries::{item, key};
use byte_lists::Name;
use sql_grammar::{Assign, ColumnName, CreatePart, Literal, Mark, OrderKey, SelectItem, Seq, Step};
use sql_tokens::Token;
use std::alloc::Global;

/// A name.
pub(crate) struct NameRule;

impl Rule for NameRule {
    type Item = Name;

    ghost use Rattle.sql_grammar.specs.Trees.{Name};
    ghost use Rattle.sql_grammar.specs.Views.{name_in};
    ghost use Rattle.sql_grammar.specs.Words.{a_name};
    ghost use Rattle.sql_grammar.specs.Grammar.{NameS};
    ghost use Rattle.sql_grammar.specs.Readers.{name_r};
    ghost use Rattle.sql_grammar.proofs.OperandLaws.{exact_name};

    ghost Tree = { Name };

    ghost value = { name_in };

    ghost spells = { NameS };

    ghost reads = { name_r };

    ghost begins = { a_name ∷ [] };

    ghost goes_on = { [] };

    ghost exact = { exact_name };

    fn read(alloc: Global, tokens: &[Token]) -> Result<(Name, &[Token]), ReadError<'_>> {
        name(alloc, tokens)
    }
}

/// A literal.
pub(crate) struct LiteralRule;

impl Rule for LiteralRule {
    type Item = Literal;

    ghost use Rattle.sql_grammar.specs.Trees.{Constant};
    ghost use Rattle.sql_grammar.specs.Views.{literal_in};
    ghost use Rattle.sql_grammar.specs.Grammar.{LiteralS};
    ghost use Rattle.sql_grammar.specs.Readers.{literal_r};
    ghost use Rattle.sql_grammar.proofs.OperandLaws.{literals, exact_literal};

    ghost Tree = { Constant };

    ghost value = { literal_in };

    ghost spells = { LiteralS };

    ghost reads = { literal_r };

    ghost begins = { literals };

    ghost goes_on = { [] };

    ghost exact = { exact_literal };

    fn read(alloc: Global, tokens: &[Token]) -> Result<(Literal, &[Token]), ReadError<'_>> {
        literal(alloc, tokens)
    }
}

/// The values of a row.
pub(crate) struct TupleRule;

impl Rule for TupleRule {
    type Item = Seq<Literal>;

    ghost use Rattle.sql_grammar.specs.Trees.{Constant};
    ghost use Rattle.sql_grammar.specs.Views.{tuple_in};
    ghost use Rattle.sql_grammar.specs.Words.{sign_code};
    ghost use Rattle.sql_tokens.specs.declared.kinds.Sign.TheVariants as sign;
    ghost use Rattle.sql_grammar.specs.Grammar.{TupleS};
    ghost use Rattle.sql_grammar.specs.Readers.{tuple_r};
    ghost use Rattle.sql_grammar.proofs.ChangeLaws.{exact_tuple};

    ghost Tree = { List Constant };

    ghost value = { tuple_in };

    ghost spells = { TupleS };

    ghost reads = { tuple_r };

    ghost begins = { sign_code sign.Open ∷ [] };

    ghost goes_on = { [] };

    ghost exact = { exact_tuple };

    fn read(alloc: Global, tokens: &[Token]) -> Result<(Seq<Literal>, &[Token]), ReadError<'_>> {
        tuple(alloc, tokens)
    }
}

/// A column of SET and its value.
pub(crate) struct SettingRule;

impl Rule for SettingRule {
    type Item = Assign;

    ghost use Rattle.sql_grammar.specs.Trees.{Setting};
    ghost use Rattle.sql_grammar.specs.Views.{setting_in};
    ghost use Rattle.sql_grammar.specs.Words.{a_name, sign_code};
    ghost use Rattle.sql_tokens.specs.declared.kinds.Sign.TheVariants as sign;
    ghost use Rattle.sql_grammar.specs.Grammar.{SettingS};
    ghost use Rattle.sql_grammar.specs.Readers.{setting_r};
    ghost use Rattle.sql_grammar.proofs.OperandLaws.{steps};
    ghost use Rattle.sql_grammar.proofs.ChangeLaws.{exact_setting};

    ghost Tree = { Setting };

    ghost value = { setting_in };

    ghost spells = { SettingS };

    ghost reads = { setting_r };

    ghost begins = { a_name ∷ [] };

    ghost goes_on = { sign_code sign.Dot ∷ steps };

    ghost exact = { exact_setting };

    fn read(alloc: Global, tokens: &[Token]) -> Result<(Assign, &[Token]), ReadError<'_>> {
        setting(alloc, tokens)
    }
}

/// A step of SET.
pub(crate) struct ChangeRule;

impl Rule for ChangeRule {
    type Item = Step;

    ghost use Rattle.sql_grammar.specs.Trees.{Change};
    ghost use Rattle.sql_grammar.specs.Views.{change_in};
    ghost use Rattle.sql_grammar.specs.Grammar.{ChangeS};
    ghost use Rattle.sql_grammar.specs.Readers.{change_r};
    ghost use Rattle.sql_grammar.proofs.OperandLaws.{steps};
    ghost use Rattle.sql_grammar.proofs.ConditionLaws.{dot};
    ghost use Rattle.sql_grammar.proofs.ChangeLaws.{exact_change};

    ghost Tree = { Change };

    ghost value = { change_in };

    ghost spells = { ChangeS };

    ghost reads = { change_r };

    ghost begins = { steps };

    ghost goes_on = { dot };

    ghost exact = { exact_change };

    fn read(alloc: Global, tokens: &[Token]) -> Result<(Step, &[Token]), ReadError<'_>> {
        change(alloc, tokens)
    }
}

/// A column.
pub(crate) struct ColumnRule;

impl Rule for ColumnRule {
    type Item = ColumnName;

    ghost use Rattle.sql_grammar.specs.Trees.{Column};
    ghost use Rattle.sql_grammar.specs.Views.{column_in};
    ghost use Rattle.sql_grammar.specs.Words.{a_name};
    ghost use Rattle.sql_grammar.specs.Grammar.{ColumnS};
    ghost use Rattle.sql_grammar.specs.Readers.{column_r};
    ghost use Rattle.sql_grammar.proofs.ConditionLaws.{dot};
    ghost use Rattle.sql_grammar.proofs.OperandLaws.{exact_column};

    ghost Tree = { Column };

    ghost value = { column_in };

    ghost spells = { ColumnS };

    ghost reads = { column_r };

    ghost begins = { a_name ∷ [] };

    ghost goes_on = { dot };

    ghost exact = { exact_column };

    fn read(alloc: Global, tokens: &[Token]) -> Result<(ColumnName, &[Token]), ReadError<'_>> {
        column(alloc, tokens)
    }
}

/// A column of the answer.
pub(crate) struct ItemRule;

impl Rule for ItemRule {
    type Item = SelectItem;

    ghost use Rattle.sql_grammar.specs.Trees.{Item};
    ghost use Rattle.sql_grammar.specs.Views.{item_in};
    ghost use Rattle.sql_grammar.specs.Grammar.{ItemS};
    ghost use Rattle.sql_grammar.specs.Readers.{item_r};
    ghost use Rattle.sql_grammar.proofs.QueryLaws.{item_begins, exact_item};
    ghost use Rattle.sql_grammar.proofs.ConditionLaws.{dot};

    ghost Tree = { Item };

    ghost value = { item_in };

    ghost spells = { ItemS };

    ghost reads = { item_r };

    ghost begins = { item_begins };

    ghost goes_on = { dot };

    ghost exact = { exact_item };

    fn read(alloc: Global, tokens: &[Token]) -> Result<(SelectItem, &[Token]), ReadError<'_>> {
        item(alloc, tokens)
    }
}

/// A key of ORDER BY.
pub(crate) struct KeyRule;

impl Rule for KeyRule {
    type Item = OrderKey;

    ghost use Rattle.sql_grammar.specs.Trees.{Key};
    ghost use Rattle.sql_grammar.specs.Views.{key_in};
    ghost use Rattle.sql_grammar.specs.Words.{code, sign_code};
    ghost use Rattle.sql_tokens.specs.declared.kinds.Sign.TheVariants as sign;
    ghost use Rattle.sql_tokens.specs.declared.kinds.Keyword.TheVariants as words;
    ghost use Rattle.sql_grammar.specs.Grammar.{KeyS};
    ghost use Rattle.sql_grammar.specs.Readers.{key_r};
    ghost use Rattle.sql_grammar.proofs.QueryLaws.{item_begins, exact_key};

    ghost Tree = { Key };

    ghost value = { key_in };

    ghost spells = { KeyS };

    ghost reads = { key_r };

    ghost begins = { item_begins };

    ghost goes_on = { sign_code sign.Dot ∷ code words.Asc ∷ code words.Desc ∷ [] };

    ghost exact = { exact_key };

    fn read(alloc: Global, tokens: &[Token]) -> Result<(OrderKey, &[Token]), ReadError<'_>> {
        key(alloc, tokens)
    }
}

/// A column or a key of a table.
pub(crate) struct PartRule;

impl Rule for PartRule {
    type Item = CreatePart;

    ghost use Rattle.sql_grammar.specs.Trees.{Part};
    ghost use Rattle.sql_grammar.specs.Views.{part_in};
    ghost use Rattle.sql_grammar.specs.Grammar.{PartS};
    ghost use Rattle.sql_grammar.specs.Readers.{part_r};
    ghost use Rattle.sql_grammar.proofs.StatementLaws.{part_begins, exact_part};
    ghost use Rattle.sql_grammar.proofs.OperandLaws.{marks};

    ghost Tree = { Part };

    ghost value = { part_in };

    ghost spells = { PartS };

    ghost reads = { part_r };

    ghost begins = { part_begins };

    ghost goes_on = { marks };

    ghost exact = { exact_part };

    fn read(alloc: Global, tokens: &[Token]) -> Result<(CreatePart, &[Token]), ReadError<'_>> {
        part(alloc, tokens)
    }
}

/// A mark of a column.
pub(crate) struct MarkRule;

impl Rule for MarkRule {
    type Item = Mark;

    ghost use Rattle.sql_grammar.specs.declared.types.Mark.{Mark as TheMark};
    ghost use Rattle.sql_grammar.specs.Grammar.{MarkS};
    ghost use Rattle.sql_grammar.specs.Readers.{mark_r};
    ghost use Rattle.sql_grammar.proofs.OperandLaws.{marks};
    ghost use Rattle.sql_grammar.proofs.StatementLaws.{exact_mark};

    ghost Tree = { TheMark };

    ghost value = { λ m. m };

    ghost spells = { MarkS };

    ghost reads = { mark_r };

    ghost begins = { marks };

    ghost goes_on = { [] };

    ghost exact = { exact_mark };

    fn read(_alloc: Global, tokens: &[Token]) -> Result<(Mark, &[Token]), ReadError<'_>> {
        mark(tokens)
    }
}

impl Told for ChangeRule {
    ghost use Rattle.sql_grammar.specs.Readers.{begins_step};

    ghost test = { begins_step };

    fn is_told(tokens: &[Token]) -> bool {
        is_change_next(tokens)
    }
}

impl Told for MarkRule {
    ghost use Rattle.sql_grammar.specs.Readers.{begins_mark};

    ghost test = { begins_mark };

    fn is_told(tokens: &[Token]) -> bool {
        is_mark_next(tokens)
    }
}
