// Frames: what a parser has begun and awaits the rest of.

use dae_base::Place;
use dae_parse_nodes::{Declared, DoParts, Loop, ParameterList, ReadOperand, Specified, TypeBody};
use dae_parse_parts::Read;
use dae_tree::{
    AssignmentOperator, BinaryOperator, Declaration, Declarator, Enumerator, Expression, External,
    InitDeclarator, Initialiser, Member, Name, PrefixOperator, Seen, Statement,
};

/// Whether a declarator has a name, has none, or may have one.
#[derive(Clone, Copy, PartialEq, Eq)]
pub enum Manner {
    ByName,
    WithoutName,
    EitherWay,
}

/// Whether a part of a declarator is required, as in parentheses, or all of them may be lacking (C90 6.5.5).
#[derive(Clone, Copy, PartialEq, Eq)]
pub enum Presence {
    Required,
    Optional,
}

/// What a tag names: a structure or an enumeration (C90 6.5.2.3).
#[derive(Clone, Copy, PartialEq, Eq)]
pub enum TagKind {
    Structure,
    Enumeration,
}

/// Whether the body of a function may follow a declarator: only the first at file scope (C90 6.7.1).
#[derive(Clone, Copy, PartialEq, Eq)]
pub enum FunctionBody {
    Allowed,
    Excluded,
}

/// Whether a statement is a block, as the body of a function is (C90 6.6.2).
#[derive(Clone, Copy, PartialEq, Eq)]
pub enum StatementKind {
    Block,
    Other,
}

/// What stands before parameters.
#[derive(Drop)]
pub struct OpenParameters {
    pub declared: Declared,
    pub place: Place,
    pub manner: Manner,
}

/// A statement up to its test, with the place of its first word.
#[derive(Drop)]
pub enum StatementHead {
    If(Place),
    While(Place),
    Switch(Place),
    /// `word` is the place of `while`.
    Do {
        place: Place,
        body: Read<Box<Statement>>,
        word: Place,
    },
}

/// A block: its brace and its declarations.
#[derive(Drop)]
pub struct Inside {
    pub place: Place,
    pub declarations: Read<Vec<Declaration>>,
}

/// What was read of a file, how many tokens it has, and the place of the first definition with too many.
#[derive(Drop)]
pub struct FileSoFar {
    pub read: Read<Vec<External>>,
    pub taken: usize,
    pub too_long: Option<Place>,
}

/// What awaits an expression. A number is the level up to which the whole may go on.
#[derive(Drop)]
pub enum ExpressionFrame {
    InParentheses(Place, u8),
    InIndex(ReadOperand, Place, u8),
    InArguments(ReadOperand, Place, Read<Vec<Expression>>, u8),
    BehindPrefix(Place, PrefixOperator, u8),
    BehindSizeof(Place, u8),
    BehindCast(Place, Specified, Declared, u8),
    BehindBinary(ReadOperand, Place, BinaryOperator, u8),
    BehindQuestion(ReadOperand, Place, u8),
    BehindColon(ReadOperand, Place, ReadOperand, u8),
    BehindAssignment(ReadOperand, Place, AssignmentOperator, u8),
    BehindComma(ReadOperand, u8),
    InSize(Declared, Place, Manner),
    InEnumerator(Box<TypeBody>, Read<Vec<Enumerator>>, Name, Place),
    InValue,
    InEvaluation,
    InTest(StatementHead, Place),
    InStart {
        word: Place,
        paren: Place,
    },
    /// `first` is the place of the semicolon before the test.
    InLoopTest {
        word: Place,
        paren: Place,
        start: Option<ReadOperand>,
        first: Place,
    },
    InStep(Box<Loop>),
    InReturn(Place),
    InCase(Place),
}

/// What awaits specifiers. A number is the level up to which the whole may go on.
#[derive(Drop)]
pub enum SpecifiersFrame {
    ForCast(Place, u8),
    ForSizeof {
        place: Place,
        paren: Place,
        level: u8,
    },
    ForParameter(OpenParameters, ParameterList),
    ForMember(Box<TypeBody>, Read<Vec<Member>>),
    ForDeclaration(FunctionBody),
}

/// What awaits a declarator. A number is the level up to which the whole may go on.
#[derive(Drop)]
pub enum DeclaratorFrame {
    BehindStar(Place, Vec<Place>),
    InGroup(Place, Manner),
    OfCast(Place, Specified, u8),
    OfSizeof {
        place: Place,
        paren: Place,
        specified: Specified,
        level: u8,
    },
    OfParameter(OpenParameters, ParameterList, Specified),
    OfMember(Box<TypeBody>, Read<Vec<Member>>, Specified, Read<Vec<Declarator>>),
    OfItem(FunctionBody, Specified, Read<Vec<InitDeclarator>>),
}

/// What awaits an initialiser.
#[derive(Drop)]
pub enum InitialiserFrame {
    InList(Place, Read<Vec<Initialiser>>),
    OfValue(Specified, Read<Vec<InitDeclarator>>, Declared, Place),
}

/// What awaits a declaration.
#[derive(Drop)]
pub enum DeclarationFrame {
    InFile(FileSoFar),
    InBlock(Inside),
}

/// What awaits a statement.
#[derive(Drop)]
pub enum StatementFrame {
    ThenBranch {
        place: Place,
        paren: Place,
        test: ReadOperand,
    },
    ElseBranch {
        place: Place,
        paren: Place,
        test: ReadOperand,
        branch: Read<Box<Statement>>,
    },
    WhileBody {
        place: Place,
        paren: Place,
        test: ReadOperand,
    },
    SwitchBody {
        place: Place,
        paren: Place,
        test: ReadOperand,
    },
    DoBody(Place),
    ForBody(Box<Loop>, Option<ReadOperand>),
    CaseBody(Place, ReadOperand),
    DefaultBody(Place),
    InStatements(Inside, Read<Vec<Statement>>),
    InDefinition(Specified, Declared),
}

/// What comes behind a part that is read, by what it awaits.
#[derive(Drop)]
pub enum Frame {
    Expression(Box<ExpressionFrame>),
    Specifiers(Box<SpecifiersFrame>),
    Declarator(Box<DeclaratorFrame>),
    Initialiser(Box<InitialiserFrame>),
    Declaration(Box<DeclarationFrame>),
    Statement(Box<StatementFrame>),
}

/// What the machine does.
#[derive(Drop)]
pub enum Doing {
    Seek(u8),
    Operated(ReadOperand, u8),
    Gave(ReadOperand),
    Calling(ReadOperand, Place, u8),
    Measuring(Place, u8),
    Specifying(Seen, Specified),
    Tagging(TagKind, Place, Seen, Specified),
    Tagged(TagKind, Place, Name, Seen, Specified),
    InMembers(Box<TypeBody>, Read<Vec<Member>>),
    Enumerating(Box<TypeBody>, Read<Vec<Enumerator>>),
    Enumerated(Box<TypeBody>, Read<Vec<Enumerator>>, Name),
    Entered(Box<TypeBody>, Read<Vec<Enumerator>>),
    Entering(Box<TypeBody>, Read<Vec<Enumerator>>),
    GaveSpecifiers(Specified),
    Declaring(Manner, Presence),
    Qualifying(Manner, Place, Vec<Place>),
    Suffixing(Manner, Declared),
    Sizing(Manner, Declared, Place),
    InParameters(Manner, Declared, Place),
    GaveDeclarator(Declared),
    Initialising,
    Listing(Place, Read<Vec<Initialiser>>),
    GaveInitialiser(Read<Initialiser>),
    AfterItem(Specified, Read<Vec<InitDeclarator>>),
    GaveDeclaration(Read<Declaration>),
    Externals(FileSoFar),
    Declarations(Inside),
    Statements(Inside, Read<Vec<Statement>>),
    AtStatement,
    Opening(StatementHead),
    Finishing(DoParts),
    Looping(Place),
    Starting {
        word: Place,
        paren: Place,
    },
    /// `first` is the place of the semicolon before the test.
    Testing {
        word: Place,
        paren: Place,
        start: Option<ReadOperand>,
        first: Place,
    },
    Stepping(Box<Loop>),
    Returning(Place),
    Breaking(Place),
    Continuing(Place),
    Defaulting(Place),
    GaveStatement(Read<Box<Statement>>, StatementKind),
}
