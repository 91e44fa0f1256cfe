//! Types of functions and of member functions.

ghost use Rattle.std.specs.Prelude.{◌≡◌, ◌≤◌, IfOk, length, map, Some};
ghost use Rattle.msvc_nodes.specs.NodeView.{name_at, name_of, type_at, type_of};
ghost use Rattle.msvc_nodes.specs.Trees.{name_trees, type_trees};
ghost use Rattle.msvc_nodes.specs.Trees as tree;
ghost use Rattle.msvc_rules.specs.Readers.{letter_here, with_value};
ghost use Rattle.msvc_rules.specs.Sorts.{member_of, plain_function};
ghost use Rattle.msvc_grammar.specs.Grammar.{has, pointed_return_qualifiers, qualifiers_of_class};
ghost use Rattle.msvc_grammar.specs.Letters.{conventions, thunk};
ghost use Rattle.msvc_grammar.specs.Reading.{read, read_name};
ghost use Rattle.msvc_grammar.specs.Productions as production;
ghost use Rattle.msvc_cursor.specs.Parser.{AlwaysReads, Consumes, frame_of, MayConsume, ReadsAs, state_of, Stays};
ghost use Rattle.msvc_cursor.specs.Rows.{parts_at};

use crate::parameters::function_parameters;
use crate::qualified_names::qualified_name;
use crate::types::type_;
use bitflags::Flags;
use msvc_cursor::budget::NodeBudget;
use msvc_cursor::failure::{Failed, Message};
use msvc_cursor::letters::{self, OptionalLetters};
use msvc_cursor::parser::Parser;
use msvc_grammar::forms::{FunctionKind, MemberPointerForm, ObjectQualifiers, TemplateNames};
use msvc_nodes::flags::{FuncClass, StorageClass};
use msvc_nodes::kinds::{Convention, PlainType};
use msvc_nodes::nodes::{Function, Symbol, Type};
use std::alloc::Allocator;

/// Reads `FUNCTION = SIGNATURE`: a function outside of any class.
#[cycle(readers)]
pub fn function<'a, 'b, L: NodeBudget, A: Allocator>(
    parser: &mut Parser<'a, 'b, L, A>,
) -> Result<&'b Type<'a, 'b>, Failed>
    ensures value { ReadsAs type_at parser.old parser.new result
        (read_name (production.encoding_after plain_function)) }
    ensures consumes { MayConsume parser.old parser.new result }
{
    parser.count_node()?;
    let f = signature(
        parser,
        FunctionKind::Free,
        FuncClass::empty(),
        StorageClass::empty(),
    )?;
    parser.put_type(Type::Function(f))
}

/// Reads `MEMBER = [THUNK_NUMBER] [THIS_QUALIFIERS] SIGNATURE`.
#[cycle(readers)]
pub fn member<'a, 'b, L: NodeBudget, A: Allocator>(
    parser: &mut Parser<'a, 'b, L, A>,
    class: FuncClass,
) -> Result<&'b Type<'a, 'b>, Failed>
    ensures value { ReadsAs type_at parser.old parser.new result
        (read_name (production.encoding_after (member_of class.0))) }
    ensures consumes { MayConsume parser.old parser.new result }
{
    parser.count_node()?;
    thunk_number(parser, class)?;
    let this_qualifiers = this_qualifiers(parser, object_qualifiers(class));
    let f = signature(parser, FunctionKind::Member, class, this_qualifiers)?;
    parser.put_type(Type::MemberFunction(f))
}

/// Reads `FUNCTION_TYPE = [THIS_QUALIFIERS] convention [class of what is returned] TYPE FUNCTION_PARAMETERS`.
#[cycle(readers)]
pub fn function_type<'a, 'b, L: NodeBudget, A: Allocator>(
    parser: &mut Parser<'a, 'b, L, A>,
    qualifiers: ObjectQualifiers,
) -> Result<&'b Type<'a, 'b>, Failed>
    ensures value { ReadsAs type_at parser.old parser.new result
        (read_name (production.function_type qualifiers)) }
    ensures consumes { Consumes parser.old parser.new result }
{
    parser.count_node()?;
    let this_qualifiers = this_qualifiers(parser, qualifiers);
    let convention = convention(parser)?;
    let returned_qualifiers = pointed_return_qualifiers(parser);
    let returned = type_(parser, returned_qualifiers)?;
    let checkpoint = function_parameters(parser)?;
    parser.put_function_type(convention, this_qualifiers, returned, checkpoint)
}

/// Reads `MEMBER_POINTER = QUALIFIED_NAME ["E"] CLASS_PART SIGNATURE`.
#[cycle(readers)]
pub fn member_pointer<'a, 'b, L: NodeBudget, A: Allocator>(
    parser: &mut Parser<'a, 'b, L, A>,
    form: MemberPointerForm,
) -> Result<&'b Type<'a, 'b>, Failed>
    ensures value { ReadsAs type_at parser.old parser.new result
        (read_name (production.member_pointer form)) }
    ensures consumes { Consumes parser.old parser.new result }
{
    parser.count_node()?;
    let symbol = qualified_name(parser, TemplateNames::NotMemorized)?;
    let size = parser.optional_flag(b'E', StorageClass::PTR64);
    let (class, this_qualifiers) = class_part(parser, form)?;
    let f = signature(
        parser,
        FunctionKind::Member,
        class,
        size.union(this_qualifiers),
    )?;
    put_member_pointer(parser, symbol, f)
}

/// Stores a pointer to a member function of these parts. It stands outside the cycle, as `put_tagged` does.
#[inline(never)]
fn put_member_pointer<'a, 'b, L: NodeBudget, A: Allocator>(
    parser: &mut Parser<'a, 'b, L, A>,
    symbol: &'b Symbol<'a, 'b>,
    f: &'b Function<'a, 'b>,
) -> Result<&'b Type<'a, 'b>, Failed>
    ensures value { ReadsAs type_at parser.old parser.new result
        (with_value (Some (tree.member_pointer (name_of symbol.now.name.now)
        (name_trees (map name_at symbol.now.scope.now)) f.now.class.0 f.now.convention
        (type_trees (map type_at f.now.parameters.now)) f.now.qualifiers.0 (type_of f.now.returned.now)))) }
    ensures stays { Stays parser.old parser.new result }
{
    parser.put_type(Type::MemberPointer(symbol, f))
}

/// Reads the qualifiers of the return type of a function type.
fn pointed_return_qualifiers<'a, 'b, L: NodeBudget, A: Allocator>(
    parser: &mut Parser<'a, 'b, L, A>,
) -> StorageClass
    ensures value { AlwaysReads parser.old parser.new result.0 (read pointed_return_qualifiers) }
    ensures shorter { length parser.new.rest.now ≤ length parser.old.rest.now }
    ensures kept { frame_of parser.new ≡ frame_of parser.old }
{
    if !parser.consume(b"?") {
        return StorageClass::empty();
    }
    parser.optional(OptionalLetters::StorageClasses)
}

/// Reads `CLASS_PART = [qualifier] | function class [THUNK_NUMBER]`: a pointer to a member function has qualifiers or a
/// class.
fn class_part<'a, 'b, L: NodeBudget, A: Allocator>(
    parser: &mut Parser<'a, 'b, L, A>,
    form: MemberPointerForm,
) -> Result<(FuncClass, StorageClass), Failed>
    ensures value { ReadsAs (λ c. (c.0.0, c.1.0)) parser.old parser.new result
        (read_name (production.class_part form)) }
    ensures consumes { MayConsume parser.old parser.new result }
{
    match form {
        MemberPointerForm::Qualified => Ok((
            FuncClass::empty(),
            parser.optional(OptionalLetters::Qualifiers),
        )),
        MemberPointerForm::OfClass => Ok((class_of_member(parser)?, StorageClass::empty())),
    }
}

/// Reads the class of the member function that a pointer refers to, and its number if it is a thunk.
fn class_of_member<'a, 'b, L: NodeBudget, A: Allocator>(
    parser: &mut Parser<'a, 'b, L, A>,
) -> Result<FuncClass, Failed>
    ensures value { ReadsAs (λ c. (c.0, 0)) parser.old parser.new result
        (read_name (production.class_part MemberPointerForm.OfClass)) }
    ensures consumes { MayConsume parser.old parser.new result }
{
    let letter = parser.byte()?;
    let Some(class) = letters::function_class(letter) else {
        return Err(parser.reject(Message::UnknownFuncClass));
    };
    thunk_number(parser, class)?;
    Ok(class)
}

/// Reads `THUNK_NUMBER = NUMBER`: the number of a thunk, which is dropped. Other functions have none.
fn thunk_number<'a, 'b, L: NodeBudget, A: Allocator>(
    parser: &mut Parser<'a, 'b, L, A>,
    class: FuncClass,
) -> Result<(), Failed>
    ensures value { ReadsAs (λ _. tt) parser.old parser.new result
        (read_name (production.thunk_number (has class.0 thunk))) }
    ensures consumes { MayConsume parser.old parser.new result }
{
    if class.contains(FuncClass::THUNK) {
        parser.number()?;
    }
    Ok(())
}

/// Reads `THIS_QUALIFIERS = FUNCTION_QUALIFIERS`. A function without an object has none.
fn this_qualifiers<'a, 'b, L: NodeBudget, A: Allocator>(
    parser: &mut Parser<'a, 'b, L, A>,
    qualifiers: ObjectQualifiers,
) -> StorageClass
    ensures value { AlwaysReads parser.old parser.new result.0
        (read_name (production.this_qualifiers qualifiers)) }
    ensures shorter { length parser.new.rest.now ≤ length parser.old.rest.now }
    ensures kept { frame_of parser.new ≡ frame_of parser.old }
{
    match qualifiers {
        ObjectQualifiers::Absent => StorageClass::empty(),
        ObjectQualifiers::Present => function_qualifiers(parser),
    }
}

/// Reads `SIGNATURE = convention RETURN_QUALIFIERS RETURNED FUNCTION_PARAMETERS`.
#[cycle(readers)]
fn signature<'a, 'b, L: NodeBudget, A: Allocator>(
    parser: &mut Parser<'a, 'b, L, A>,
    kind: FunctionKind,
    class: FuncClass,
    this_qualifiers: StorageClass,
) -> Result<&'b Function<'a, 'b>, Failed>
    ensures value { ReadsAs parts_at parser.old parser.new result (read_name (production.signature kind)) }
    ensures given { IfOk result (λ f. (f.now.class.0 ≡ class.0) × (f.now.qualifiers.0 ≡ this_qualifiers.0)) }
    ensures consumes { MayConsume parser.old parser.new result }
{
    let convention = convention(parser)?;
    let qualifiers = return_qualifiers(parser)?;
    let returned = returned(parser, kind, qualifiers)?;
    let checkpoint = function_parameters(parser)?;
    parser.put_parts(convention, class, this_qualifiers, returned, checkpoint)
}

/// Reads how a function is called.
pub fn convention<'a, 'b, L: NodeBudget, A: Allocator>(
    parser: &mut Parser<'a, 'b, L, A>,
) -> Result<Convention, Failed>
    ensures value { ReadsAs (λ c. c) parser.old parser.new result (letter_here conventions) }
    ensures consumes { MayConsume parser.old parser.new result }
{
    let letter = parser.byte()?;
    match letters::convention(letter) {
        Some(convention) => Ok(convention),
        None => Err(parser.reject(Message::UnknownCallingConv)),
    }
}

/// Reads `RETURN_QUALIFIERS = ["?" qualifier of what is returned]`.
fn return_qualifiers<'a, 'b, L: NodeBudget, A: Allocator>(
    parser: &mut Parser<'a, 'b, L, A>,
) -> Result<StorageClass, Failed>
    ensures value { ReadsAs (λ q. q.0) parser.old parser.new result (read_name production.return_qualifiers) }
    ensures consumes { MayConsume parser.old parser.new result }
{
    if !parser.consume(b"?") {
        return Ok(StorageClass::empty());
    }
    let letter = parser.byte()?;
    match letters::return_qualifier(letter) {
        Some(qualifier) => Ok(qualifier),
        None => Err(parser.reject(Message::UnknownStorageClass)),
    }
}

/// Reads `RETURNED = "@" | TYPE`: of a member function, an `@` means no return type, as of a constructor.
#[cycle(readers)]
fn returned<'a, 'b, L: NodeBudget, A: Allocator>(
    parser: &mut Parser<'a, 'b, L, A>,
    kind: FunctionKind,
    qualifiers: StorageClass,
) -> Result<&'b Type<'a, 'b>, Failed>
    ensures value { ReadsAs type_at parser.old parser.new result (read_name (production.returned kind qualifiers.0)) }
    ensures consumes { Consumes parser.old parser.new result }
{
    match kind {
        FunctionKind::Member => member_returned(parser, qualifiers),
        FunctionKind::Free => type_(parser, qualifiers),
    }
}

/// Reads the return type of a member function: an `@` means none, as of a constructor. It is a function apart from
/// `returned`, so that the prover meets each case by itself.
#[cycle(readers)]
fn member_returned<'a, 'b, L: NodeBudget, A: Allocator>(
    parser: &mut Parser<'a, 'b, L, A>,
    qualifiers: StorageClass,
) -> Result<&'b Type<'a, 'b>, Failed>
    ensures value { ReadsAs type_at parser.old parser.new result
        (read_name (production.returned FunctionKind.Member qualifiers.0)) }
    ensures consumes { Consumes parser.old parser.new result }
{
    if parser.consume(b"@") {
        return parser.new_plain(PlainType::None);
    }
    type_(parser, qualifiers)
}

/// Reads `FUNCTION_QUALIFIERS = ["E"] ["I"] ["F"] ["G" | "H"] [qualifier]`.
fn function_qualifiers<'a, 'b, L: NodeBudget, A: Allocator>(
    parser: &mut Parser<'a, 'b, L, A>,
) -> StorageClass
    ensures value { AlwaysReads parser.old parser.new result.0 (read_name production.function_qualifiers) }
    ensures shorter { length parser.new.rest.now ≤ length parser.old.rest.now }
    ensures kept { frame_of parser.new ≡ frame_of parser.old }
{
    let size = parser.optional_flag(b'E', StorageClass::PTR64);
    let restrict = parser.optional_flag(b'I', StorageClass::RESTRICT);
    let alignment = parser.optional_flag(b'F', StorageClass::UNALIGNED);
    let reference = parser.optional(OptionalLetters::ReferenceQualifiers);
    let qualifier = parser.optional(OptionalLetters::Qualifiers);
    size.union(restrict.union(alignment.union(reference.union(qualifier))))
}

/// Returns whether a member function of a class has qualifiers on `this`: a static one has none.
fn object_qualifiers(class: FuncClass) -> ObjectQualifiers
    ensures { result ≡ qualifiers_of_class class.0 }
{
    if class.contains(FuncClass::STATIC) {
        return ObjectQualifiers::Absent;
    }
    ObjectQualifiers::Present
}
