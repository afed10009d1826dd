//! A design as it is written: what the writer chose, and nothing that the grammar fixes.
//! Names are as they stand in the text; whether they are declared, and what they stand for, is not asked here.
use crate::boxes::Boxed;
use acc_base::sequences::{Seq, Text};

/// A variable, or `self`.
#[derive(Drop)]
pub enum Variable {
    Named(Text),
    Oneself,
}

/// A number, a variable, or a number times a variable.
#[derive(Drop)]
pub enum Term {
    Constant(u64),
    Plain(Variable),
    Product(u64, Variable),
}

/// A further term of a sum, behind a plus or, where `minus` is, a minus.
#[derive(Drop)]
pub struct SignedTerm {
    pub minus: bool,
    pub term: Term,
}

/// A linear value: a first term, with a minus before it where `minus` is, and further ones.
#[derive(Drop)]
pub struct Sum {
    pub minus: bool,
    pub first: Term,
    pub others: Seq<SignedTerm>,
}

/// One or more linear values, with commas between them.
#[derive(Drop)]
pub struct Sums {
    pub first: Sum,
    pub others: Seq<Sum>,
}

/// A row: a table by its name, and the row's key.
#[derive(Drop)]
pub struct Place {
    pub table: Text,
    pub key: Boxed<Sums>,
}

/// A column of a row, by its name.
#[derive(Drop)]
pub struct Cell {
    pub place: Place,
    pub column: Text,
}

/// One or more names.
#[derive(Drop)]
pub struct Names {
    pub first: Text,
    pub others: Seq<Text>,
}

/// How two values compare: `<=`, `>=` or `=`.
#[derive(Drop)]
pub enum Relation {
    AtMost,
    AtLeast,
    Equal,
}

/// A relation between two linear values.
#[derive(Drop)]
pub struct LinRelTree {
    pub left: Sum,
    pub relation: Relation,
    pub right: Sum,
}

/// A path's guard: one or more relations, all of which are to hold.
#[derive(Drop)]
pub struct LinRels {
    pub first: LinRelTree,
    pub others: Seq<LinRelTree>,
}

/// What a form adds up, beside numbers.
#[derive(Drop)]
pub enum Operand {
    Variable(Variable),
    /// The column's value.
    Column(Cell),
    /// 1 where the row is there, else 0.
    Has(Place),
    /// The number of the rows whose keys begin so.
    Count(Place),
    /// The sum of the column over the rows whose keys begin so.
    Sum(Cell),
}

/// A number, an operand, or a number times an operand.
#[derive(Drop)]
pub enum FormTerm {
    Constant(u64),
    Plain(Operand),
    Product(u64, Operand),
}

/// A further term of a form, behind a plus or, where `minus` is, a minus.
#[derive(Drop)]
pub struct SignedFormTerm {
    pub minus: bool,
    pub term: FormTerm,
}

/// A linear value over variables and rows: a first term, with a minus before it where `minus` is, and further ones.
#[derive(Drop)]
pub struct FormTree {
    pub minus: bool,
    pub first: FormTerm,
    pub others: Seq<SignedFormTerm>,
}

/// A relation between two forms.
#[derive(Drop)]
pub struct FormRelTree {
    pub left: Boxed<FormTree>,
    pub relation: Relation,
    pub right: Boxed<FormTree>,
}

/// One or more relations between forms, with commas between them.
#[derive(Drop)]
pub struct FormRels {
    pub first: FormRelTree,
    pub others: Seq<FormRelTree>,
}

/// A clause: a relation that is to hold for all values of the variables, where the guards hold.
#[derive(Drop)]
pub struct ClauseTree {
    pub variables: Option<Names>,
    pub guards: Option<FormRels>,
    pub relation: FormRelTree,
}

/// `table` or, where `private` is, `private`: a name, the number of key components, and the columns' names.
#[derive(Drop)]
pub struct TableTree {
    pub private: bool,
    pub name: Text,
    pub width: u64,
    pub columns: Seq<Text>,
}

/// What a step reads, and the variable that is assigned.
#[derive(Drop)]
pub enum ReadTree {
    /// `let`: the value.
    Let(Variable, Sum),
    /// `get`: the column's value.
    Get(Variable, Cell),
    /// `has`: 1 where the row is there, else 0.
    Has(Variable, Place),
    /// `count`: the number of the rows whose keys begin so.
    Count(Variable, Place),
    /// `sum`: the sum of the column over the rows whose keys begin so.
    Sum(Variable, Cell),
    /// `least`: the least next key component of the rows whose keys begin so.
    Least(Variable, Place),
    /// `greatest`: the greatest next key component of the rows whose keys begin so.
    Greatest(Variable, Place),
    /// `take`: the next number of the tape.
    Take(Variable),
    /// `mul`: the product of two variables.
    Mul(Variable, Variable, Variable),
    /// `div`: the variable, divided by the number.
    Div(Variable, Variable, u64),
}

/// What a path writes.
#[derive(Drop)]
pub enum ActionTree {
    /// `put`: the row, with a value a column; none where the table has no columns.
    Put(Place, Option<Boxed<Sums>>),
    /// `del`: the row goes.
    Del(Place),
    /// `set`: the column gets the value.
    Set(Cell, Sum),
    /// `add`: the column rises by the value.
    Add(Cell, Sum),
}

/// Where a path ends.
#[derive(Drop)]
pub enum TargetTree {
    /// `goto`: another point of the type, by its name.
    Goto(Text),
    Commit,
    Undone,
    /// `refuse`: with this number.
    Refuse(u64),
}

/// `path`: the guard, if it has one, what is written, and where it ends.
#[derive(Drop)]
pub struct PathTree {
    pub guard: Option<Boxed<LinRels>>,
    pub actions: Seq<ActionTree>,
    pub target: TargetTree,
}

/// What is read, and one or more paths.
#[derive(Drop)]
pub struct StepTree {
    pub reads: Seq<ReadTree>,
    pub first: PathTree,
    pub others: Seq<PathTree>,
}

/// `point`: a name, the variant, if it has one, what holds there, the step forward and the step that undoes.
#[derive(Drop)]
pub struct PointTree {
    pub name: Text,
    pub variant: Option<Sum>,
    pub holds: Seq<ClauseTree>,
    pub next: Boxed<StepTree>,
    pub undo: Boxed<StepTree>,
}

/// `type`: a name, the parameters' names, the limit, what is returned, the other locals, what a commit ensures and a
/// compensation repairs, and one or more points.
#[derive(Drop)]
pub struct TypeTree {
    pub name: Text,
    pub params: Seq<Text>,
    pub limit: u64,
    pub returns: Option<Names>,
    pub locals: Option<Names>,
    pub ensured: Seq<ClauseTree>,
    pub repaired: Seq<ClauseTree>,
    pub first: PointTree,
    pub others: Seq<PointTree>,
}

/// One of a point's two steps.
#[derive(Drop)]
pub enum SideTree {
    Next,
    Undo,
}

/// A point, by its type's name and its own.
#[derive(Drop)]
pub struct PointName {
    pub type_name: Text,
    pub point: Text,
}

/// Two variables that are equal: one of the transaction that stands at a point, and one of another's step.
#[derive(Drop)]
pub struct PairTree {
    pub held: Variable,
    pub step: Variable,
}

/// One or more pairs, with commas between them.
#[derive(Drop)]
pub struct Pairs {
    pub first: PairTree,
    pub others: Seq<PairTree>,
}

/// `entry`: a point where a transaction stands, the step that another takes, and where this is an entry for some
/// variables alone, the pairs that are equal.
#[derive(Drop)]
pub struct EntryTree {
    pub held: PointName,
    pub by: PointName,
    pub side: SideTree,
    pub pairs: Option<Pairs>,
}

/// `hint`: a step, and a value over its variables.
#[derive(Drop)]
pub struct HintTree {
    pub of: PointName,
    pub side: SideTree,
    pub value: Sum,
}

/// A whole design.
#[derive(Drop)]
pub struct DesignTree {
    pub tables: Seq<TableTree>,
    pub always: Seq<ClauseTree>,
    pub types: Seq<TypeTree>,
    pub entries: Seq<EntryTree>,
    pub hints: Seq<HintTree>,
}
