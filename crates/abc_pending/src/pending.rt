//! The pending work: what waits for an answer, and what is done now. It refers to nodes of the tree and copies none.
use crate::place::{Changes, Place, Wanted};
use abc_acts::{Entry, Held, Train};
use abc_frames::Kept;
use abc_num::{Boxed, Items, Text};
use abc_state::{Actual, CallNames, Exit, Filling, Scope, Spot, Tabling, Wording};
use abc_tree::{
    Action, Alternatives, Bound, Expr, Fill, Link, Op, Pair, Piece, Quantifier, Suite, Template,
    Test,
};
use abc_value::Value;

/// What a node gives.
#[derive(Drop)]
pub enum Reply {
    Val(Value),
    Truth(bool),
    Went(Exit),
    Actual(Boxed<Actual>),
    /// The address that an expression is, if it is one.
    Spot(Option<Spot>),
}

/// What is done with the values of a row of expressions.
#[derive(Drop)]
pub enum Purpose<'a> {
    Compound,
    Call(Wanted, &'a Template),
}

/// What waits within an expression for a value. Rows are those behind the node that is evaluated.
#[derive(Drop)]
pub enum ForExpression<'a> {
    RowValue(Purpose<'a>, &'a [Expr], Vec<Value>),
    Converted(&'a [Piece], Wording),
    Filler(&'a [Fill], Boxed<Filling>),
    RangeFrom(&'a Expr, &'a [Fill], Boxed<Filling>),
    RangeTo(Boxed<Value>, &'a [Fill], Boxed<Filling>),
    PairKey(&'a Expr, &'a [Pair], Boxed<Tabling>),
    PairAssociate(Boxed<Value>, &'a [Pair], Boxed<Tabling>),
    SelectTable(&'a Expr),
    SelectKey(Value),
    ApplyOne(Op),
    ApplyLeft(Op, &'a Expr),
    ApplyRight(Op, Value),
}

/// What waits within a test for a value.
#[derive(Drop)]
pub enum ForTest<'a> {
    ChainFirst(&'a [Link]),
    ChainNext(Boxed<Value>, Op, &'a [Link]),
    MemberLeft(Op, &'a Expr),
    MemberRight(Op, Value),
    Train(Quantifier, &'a Bound, &'a Boxed<Test>),
}

/// What waits within an actual, an address or a command for a value.
#[derive(Drop)]
pub enum ForAction<'a> {
    PlainActual,
    PartActual(Boxed<Value>, Option<Spot>),
    SpotKey(Option<Spot>),
    WriteBetween(u32, u32),
    ChangeValue(Changes, &'a Expr),
    ForTrain(&'a Bound, &'a Suite),
    ReturnValue,
}

/// What waits for a truth value.
#[derive(Drop)]
pub enum ForTruth<'a> {
    Negated,
    AndThen(&'a Boxed<Test>),
    OrElse(&'a Boxed<Test>),
    /// The test of an element, with what the names had before, and the elements behind it.
    ElementTest(Quantifier, &'a Bound, &'a Boxed<Test>, Items<Held>, Boxed<Train>),
    CheckTest,
    IfTest(&'a Suite),
    /// The suite of the alternative, and those behind it, which begin at this place.
    SelectTest(&'a Suite, &'a Alternatives, usize),
    /// And so many turns may come behind this one.
    WhileTest(u64, &'a Test, &'a Suite),
    ReportTest,
}

/// How a call of a unit ends: with an answer, and all targets as they were; or with the formals put back.
#[derive(Drop)]
pub enum Leaves {
    With(Wanted, Kept),
    Formals,
}

/// How a call ends, and what the caller had.
#[derive(Drop)]
pub struct Caller<'a> {
    pub how: Leaves,
    pub entry: Entry,
    pub scope: Scope<'a>,
}

/// What waits for the end of a suite. The ends of calls hold what the caller had.
#[derive(Drop)]
pub enum ForFlow<'a> {
    CallEnd(Boxed<Caller<'a>>),
    RefinementEnd(Wanted, Kept, CallNames),
    Refined,
    WhileBody(u64, &'a Test, &'a Suite),
    ForBody(&'a Bound, &'a Suite, Boxed<Train>),
    /// The commands of a suite from this place on.
    SuiteRest(&'a Suite, usize),
}

/// What waits for an actual.
#[derive(Drop)]
pub enum ForActual<'a> {
    ActualTable(&'a Expr),
    ActualField(&'a [Expr], Vec<Value>, Vec<Option<Spot>>),
    CallActual(&'a Template, &'a [Expr], Vec<Actual>),
}

/// What waits for an address.
#[derive(Drop)]
pub enum ForSpot<'a> {
    SpotTable(&'a Expr),
    SpotField(u32, &'a [Expr], Vec<Option<Spot>>),
    ChangePlace(Changes, Value),
    DeletePlace,
}

/// What waits for a reply, at its place.
#[derive(Drop)]
pub enum Waiting<'a> {
    Expression(Place, ForExpression<'a>),
    Test(Place, ForTest<'a>),
    Action(Place, ForAction<'a>),
    Truth(Place, ForTruth<'a>),
    Flow(Place, ForFlow<'a>),
    Actual(Place, ForActual<'a>),
    Spot(Place, ForSpot<'a>),
}

/// What is done now.
#[derive(Drop)]
pub enum Job<'a> {
    See(&'a Expr),
    SeeActual(&'a Expr),
    Try(&'a Test),
    /// The command of a suite at this place.
    Perform(&'a Suite, usize),
    /// The commands of a suite from this place on.
    PerformAll(&'a Suite, usize),
    SeeRow(Purpose<'a>, &'a [Expr], Vec<Value>),
    Spell(&'a [Piece], Wording),
    Fill(&'a [Fill], Boxed<Filling>),
    FillTable(&'a [Pair], Boxed<Tabling>),
    Compare(Boxed<Value>, &'a [Link]),
    Quantify(Quantifier, &'a Bound, &'a Boxed<Test>, Items<Held>, Boxed<Train>),
    SeeFields(&'a [Expr], Vec<Value>, Vec<Option<Spot>>),
    SeeActuals(&'a Template, &'a [Expr], Vec<Actual>),
    /// The number bounds the height of the address.
    Find(u32, &'a Expr),
    FindRow(u32, &'a [Expr], Vec<Option<Spot>>),
    /// The alternatives from this place on.
    Choose(&'a Alternatives, usize),
    /// A turn of WHILE, behind which so many may come.
    Turn(u64, &'a Test, &'a Suite),
    TurnsOver(&'a Bound, &'a Suite, Boxed<Train>),
    Enter(Wanted, &'a Template, Vec<Value>),
    /// The expression or test refinement that a name is.
    Refine(Wanted, u32),
    EnterCommand(&'a Template, Vec<Actual>),
    /// The command refinement of this name.
    RefineCommand(&'a Text),
}

/// What is done now, and its place.
#[derive(Drop)]
pub struct Work<'a>(pub Place, pub Job<'a>);

/// What a piece of work comes to: a reply, other work that goes on in its place, or work for whose reply something waits.
#[derive(Drop)]
pub enum Next<'a> {
    Give(Reply),
    Go(Work<'a>),
    Wait(Waiting<'a>, Work<'a>),
}

/// What the machine is at: an immediate command of which nothing is done yet, some work, or a reply for what waits last.
#[derive(Drop)]
pub enum Doing<'a> {
    Item(Place, &'a Action),
    Work(Work<'a>),
    Answered(Reply),
}
