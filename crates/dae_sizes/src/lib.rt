// How small programs are beside the tokens that they come from, and the literals: the tree of a definition, the typed tree that its
// plan gives, the variables and the code of its function, and the code of its streams. The laws are the contracts of functions
// that do nothing but call others like them.
#![tactic(auto)]

ghost use Rattle.dae_sizes.specs.Bodies.{BodiesPaid};
ghost use Rattle.dae_sizes.specs.Constants.{FunctionsInitialiseConstants};
ghost use Rattle.dae_sizes.specs.Data.{DataAreConstant};
ghost use Rattle.dae_sizes.specs.Paid.{ValuesPaid};
ghost use Rattle.dae_sizes.specs.Promise.{DefinitionsAreShort, FormsAreFew, FormsAreLittle};
ghost use Rattle.dae_sizes.specs.Promise.{FormsAreWithin, FramesAreSmall, FramesAreWithin};
ghost use Rattle.dae_sizes.specs.Promise.{FunctionsAreCounted, FunctionsAreFew, FunctionsAreLittle};
ghost use Rattle.dae_sizes.specs.Promise.{FunctionsAreWithin};
ghost use Rattle.dae_sizes.specs.Promise.{StreamsAreLittle, StreamsAreWithin};
ghost use Rattle.dae_sizes.specs.Small.{CodeIsLittle, VariablesAreFew};
ghost use Rattle.dae_sizes.specs.Tests.{FunctionsTestValues};
ghost use Rattle.dae_sizes.specs.Worth.{DefinitionsAreLong, PartsPay, TokensPay};
ghost use Rattle.dae_sizes.specs.Written.{TypedAreFew};
ghost use Rattle.dae_sizes.specs.WrittenStatements.{BlocksAreFew};

/// The tokens and the literals of a definition pay for its tree.
pub fn tokens_pay()
    ensures { TokensPay }
{}

/// The definitions and declarations of a file have the tokens and literals of the file among them.
pub fn parts_pay()
    ensures { PartsPay }
{}

/// A definition of the grammar has at least 4 tokens.
pub fn definitions_are_long()
    ensures { DefinitionsAreLong }
{}

/// A typed value weighs at most 4 for each token of its expression and twice the bytes of its literals, and 2 less.
pub fn values_paid()
    ensures { ValuesPaid }
{}

/// The bodies of a file's functions come from its definitions, at most one from each. A definition declares at least as many
/// names as its function has parameters and locals, and its other tokens and its literals pay for the block.
pub fn bodies_paid()
    ensures { BodiesPaid }
{}

/// The functions of a typed file come from its definitions, at most one from each, and each has fewer variables, with those
/// that lowering makes, than 4 for each token of its definition.
pub fn variables_are_few()
    ensures { VariablesAreFew }
{
    tokens_pay();
    bodies_paid();
    dae_types_file_plans::files_are_checked();
}

/// The same of their code, which weighs less than 16 for each token of its definition and 8 for each byte of its literals, where
/// an item weighs 2 and a call 3 more.
pub fn code_is_little()
    ensures { CodeIsLittle }
{
    tokens_pay();
    bodies_paid();
    dae_types_file_plans::files_are_checked();
}

/// Files have at most one function for every second of their tokens.
pub fn functions_are_counted()
    ensures { FunctionsAreCounted }
{
    tokens_pay();
    parts_pay();
    bodies_paid();
    dae_types_file_plans::files_are_checked();
}

/// The functions that files join to come from the files' definitions, at most one from each, and each has fewer variables, with
/// those that lowering makes, than 4 for each token of its definition.
pub fn functions_are_few()
    ensures { FunctionsAreFew }
{
    variables_are_few();
}

/// Where no definition has more than n tokens, such a function has fewer than 4 for each of n.
pub fn functions_are_within()
    ensures { FunctionsAreWithin }
{
    functions_are_few();
}

/// The same of what their code weighs, by the tokens of the definition and the bytes of its literals.
pub fn functions_are_little()
    ensures { FunctionsAreLittle }
{
    code_is_little();
}

/// A function of the form of a program has at most 4 variables for each token of its definition.
pub fn forms_are_few()
    ensures { FormsAreFew }
{
    dae_lower_formed::forms_small();
    functions_are_few();
}

/// A frame of 19 words and one for each variable of a function has at most 8 words for each token of its definition.
pub fn frames_are_small()
    ensures { FramesAreSmall }
{
    definitions_are_long();
    forms_are_few();
}

/// Where no definition has more than n tokens, such a frame has at most 8 words for each of n.
pub fn frames_are_within()
    ensures { FramesAreWithin }
{
    definitions_are_long();
    forms_are_few();
}

/// A definition of a typed file has at most 8,192 tokens.
pub fn definitions_are_short()
    ensures { DefinitionsAreShort }
{}

/// A function of the form has at most 8 items for each token of its definition and 4 for each byte of its literals.
pub fn forms_are_little()
    ensures { FormsAreLittle }
{
    dae_lower_formed::code_within();
    functions_are_little();
}

/// The functions of the form weigh at most 16 for each token of the files and 8 for each byte of their literals, where an item
/// weighs 2 and a call 3 more.
pub fn forms_are_within()
    ensures { FormsAreWithin }
{
    parts_pay();
    forms_are_little();
}

/// A function of a stream has at most 224 words for each token of its definition and 112 for each byte of its literals.
pub fn streams_are_little()
    ensures { StreamsAreLittle }
{
    dae_ir_pair::words_are_bounded();
    forms_are_little();
}

/// A stream has at most 224 words for each token of the files and 112 for each byte of their literals, and 8 more.
pub fn streams_are_within()
    ensures { StreamsAreWithin }
{
    parts_pay();
    streams_are_little();
}

/// The aggregates of the functions that files join to get constants alone: numbers, and addresses of objects with static storage.
pub fn functions_initialise_constants()
    ensures { FunctionsInitialiseConstants }
{
    bodies_paid();
    dae_types_file_plans::files_are_checked();
}

/// No statement of the functions that files join to tests the value of a call of exit or abort: each test is of a value.
pub fn functions_test_values()
    ensures { FunctionsTestValues }
{
    dae_void_laws::bodies_test_values();
    dae_types_file_plans::files_are_checked();
}

/// A typed value has at most three nodes that are surely evaluated for each such node of its expression, and one fewer. So work
/// that is counted on typed trees is at most three times as much as on what is written, expression by expression.
pub fn typed_are_few()
    ensures { TypedAreFew }
{}

/// The objects with static storage that a file initialises get constants alone: numbers, and addresses of such objects.
pub fn data_are_constant()
    ensures { DataAreConstant }
{
    dae_types_file_plans::files_are_checked();
}

/// The typed statements of a function's block have at most four units of work for each that is written, however often each of
/// them is executed.
pub fn blocks_are_few()
    ensures { BlocksAreFew }
{}
