//! Types.

ghost use Rattle.std.specs.Int.{int_wrapping_neg, w32};
ghost use Rattle.std.specs.Prelude.{◌≡◌, codes, IfErr, IfOk, Some};
ghost use Rattle.msvc_nodes.specs.NodeView.{type_at, type_of};
ghost use Rattle.msvc_nodes.specs.Trees.{name_trees, numbered, pointing, tagged};
ghost use Rattle.msvc_nodes.specs.declared.kinds.NumberedType.TheVariants as number_kind;
ghost use Rattle.msvc_rules.specs.Readers.{and_then, in_node, with_value};
ghost use Rattle.msvc_grammar.specs.Grammar.{array_class, arrays};
ghost use Rattle.msvc_grammar.specs.Letters.{qualifiers};
ghost use Rattle.msvc_grammar.specs.Reading.{read, read_name};
ghost use Rattle.msvc_rules.specs.Rules as rules;
ghost use Rattle.msvc_grammar.specs.Productions as production;
ghost use Rattle.msvc_cursor.specs.Parser.{Consumes, MayConsume, ReadsAs, state_of, Stays};

use crate::function_types::{function_type, member_pointer};
use crate::qualified_names::qualified_name;
use bitflags::Flags;
use bumpalo::collections::into_bump_slice;
use msvc_cursor::budget::NodeBudget;
use msvc_cursor::failure::{Failed, Failure, Message};
use msvc_cursor::letters::{self, OptionalLetters};
use msvc_cursor::parser::Parser;
use msvc_cursor::type_prefixes::type_prefix;
use msvc_grammar::forms::{MemberPointerForm, ObjectQualifiers, TemplateNames, TypePrefix};
use msvc_nodes::flags::StorageClass;
use msvc_nodes::kinds::{NumberedType, PlainType, PointerAffinity, TagKind};
use msvc_nodes::nodes::Type;
use std::alloc::Allocator;

/// Reads `TYPE = text of a form, and what the form asks for | ["$"] PLAIN_TYPE`.
#[cycle(readers)]
pub fn type_<'a, 'b, L: NodeBudget, A: Allocator>(
    parser: &mut Parser<'a, 'b, L, A>,
    qualifiers: StorageClass,
) -> Result<&'b Type<'a, 'b>, Failed>
    ensures value { ReadsAs type_at parser.old parser.new result (read_name (production.type_ qualifiers.0)) }
    ensures consumes { Consumes parser.old parser.new result }
{
    if let Some((form, rest)) = type_prefix(parser.rest) {
        parser.rest = rest;
        return prefixed_type(parser, form, qualifiers);
    }
    // A `$` is dropped. Each branch has its call, so that the prover matches each with a rule.
    if parser.consume(b"$") {
        return plain_type(parser, qualifiers);
    }
    plain_type(parser, qualifiers)
}

/// Reads what follows the text of a form. Each case ends in a call, so that this frame is gone while parts are read.
#[cycle(readers)]
#[inline(never)]
fn prefixed_type<'a, 'b, L: NodeBudget, A: Allocator>(
    parser: &mut Parser<'a, 'b, L, A>,
    form: TypePrefix,
    qualifiers: StorageClass,
) -> Result<&'b Type<'a, 'b>, Failed>
    ensures value { ReadsAs type_at parser.old parser.new result
        (read_name (production.prefixed_type qualifiers.0 form)) }
    ensures consumes { MayConsume parser.old parser.new result }
{
    match form {
        TypePrefix::Enumeration => tagged_type(
            parser,
            TagKind::Enum,
            TemplateNames::Memorized,
            qualifiers,
        ),
        TypePrefix::Alias => tagged_type(
            parser,
            TagKind::Alias,
            TemplateNames::NotMemorized,
            qualifiers,
        ),
        TypePrefix::ReferenceToFunction => pointed_function(
            parser,
            PointerAffinity::Reference,
            qualifiers,
        ),
        TypePrefix::PointerToFunction => pointed_function(
            parser,
            PointerAffinity::Pointer,
            qualifiers,
        ),
        TypePrefix::RValueReference => pointing_type(
            parser,
            PointerAffinity::RValueReference,
            qualifiers,
        ),
        TypePrefix::Constant => numbered_type(parser, NumberedType::Constant),
        TypePrefix::TemplateParameter => numbered_type(parser, NumberedType::TemplateParameter),
        TypePrefix::EmptyPack => parser.new_plain(PlainType::EmptyPack),
        TypePrefix::Nullptr => parser.new_plain(PlainType::Nullptr),
        TypePrefix::Array => array(parser),
        TypePrefix::Function => function_type(parser, ObjectQualifiers::Absent),
        TypePrefix::QualifiedFunction => function_type(parser, ObjectQualifiers::Present),
        TypePrefix::CvQualified => cv_type(parser),
        TypePrefix::QualifiedMemberPointer => member_pointer(parser, MemberPointerForm::Qualified),
        TypePrefix::MemberPointer => marked_member_pointer(parser),
    }
}

/// Reads `[qualifier] PLAIN_TYPE`: the qualifiers replace those that were read before.
#[cycle(readers)]
#[inline(never)]
fn cv_type<'a, 'b, L: NodeBudget, A: Allocator>(
    parser: &mut Parser<'a, 'b, L, A>,
) -> Result<&'b Type<'a, 'b>, Failed>
    ensures value { ReadsAs type_at parser.old parser.new result
        (λ left s. and_then (read (rules.optional qualifiers) left s)
        (λ q l t. read_name (production.plain_type q) l t)) }
    ensures consumes { Consumes parser.old parser.new result }
{
    let qualifiers = parser.optional(OptionalLetters::Qualifiers);
    plain_type(parser, qualifiers)
}

/// Reads `"?" MEMBER_POINTER`, with the class of the member function.
#[cycle(readers)]
#[inline(never)]
fn marked_member_pointer<'a, 'b, L: NodeBudget, A: Allocator>(
    parser: &mut Parser<'a, 'b, L, A>,
) -> Result<&'b Type<'a, 'b>, Failed>
    ensures value { ReadsAs type_at parser.old parser.new result
        (λ left s. and_then (read (rules.literal (codes "?")) left s)
        (λ _ l t. read_name (production.member_pointer MemberPointerForm.OfClass) l t)) }
    ensures consumes { Consumes parser.old parser.new result }
{
    parser.expect(b"?", Message::QuestionMarkExpected)?;
    member_pointer(parser, MemberPointerForm::OfClass)
}

/// Reads a class, struct, union, enumeration or alias by its name.
#[cycle(readers)]
fn tagged_type<'a, 'b, L: NodeBudget, A: Allocator>(
    parser: &mut Parser<'a, 'b, L, A>,
    tag: TagKind,
    templates: TemplateNames,
    qualifiers: StorageClass,
) -> Result<&'b Type<'a, 'b>, Failed>
    ensures value { ReadsAs type_at parser.old parser.new result
        (λ left s. in_node left s (λ left s. and_then (read_name (production.qualified_name templates) left s)
        (λ n left s. Some (tagged tag n.0 (name_trees n.1) qualifiers.0, left, s)))) }
    ensures consumes { Consumes parser.old parser.new result }
{
    parser.count_node()?;
    let symbol = qualified_name(parser, templates)?;
    parser.put_tagged(tag, symbol, qualifiers)
}

/// Reads `POINTEE = ["E"] [storage class] TYPE`, and stores a pointer or reference to it.
#[cycle(readers)]
fn pointing_type<'a, 'b, L: NodeBudget, A: Allocator>(
    parser: &mut Parser<'a, 'b, L, A>,
    affinity: PointerAffinity,
    qualifiers: StorageClass,
) -> Result<&'b Type<'a, 'b>, Failed>
    ensures value { ReadsAs type_at parser.old parser.new result
        (λ left s. in_node left s (λ left s. and_then (read_name production.pointee left s)
        (λ t left s. Some (pointing affinity t qualifiers.0, left, s)))) }
    ensures consumes { Consumes parser.old parser.new result }
{
    parser.count_node()?;
    let size = parser.optional_flag(b'E', StorageClass::PTR64);
    let class = parser.optional(OptionalLetters::StorageClasses);
    let inner = type_(parser, size.union(class))?;
    parser.put_type(Type::Pointing(affinity, qualifiers, inner))
}

/// Reads a pointer or reference to a function.
#[cycle(readers)]
fn pointed_function<'a, 'b, L: NodeBudget, A: Allocator>(
    parser: &mut Parser<'a, 'b, L, A>,
    affinity: PointerAffinity,
    qualifiers: StorageClass,
) -> Result<&'b Type<'a, 'b>, Failed>
    ensures value { ReadsAs type_at parser.old parser.new result
        (λ left s. in_node left s
        (λ left s. and_then (read_name (production.function_type ObjectQualifiers.Absent) left s)
        (λ t left s. Some (pointing affinity t qualifiers.0, left, s)))) }
    ensures consumes { Consumes parser.old parser.new result }
{
    parser.count_node()?;
    let inner = function_type(parser, ObjectQualifiers::Absent)?;
    parser.put_type(Type::Pointing(affinity, qualifiers, inner))
}

/// Reads a template argument that is a number.
fn numbered_type<'a, 'b, L: NodeBudget, A: Allocator>(
    parser: &mut Parser<'a, 'b, L, A>,
    kind: NumberedType,
) -> Result<&'b Type<'a, 'b>, Failed>
    ensures value { ReadsAs type_at parser.old parser.new result
        (λ left s. in_node left s (λ left s. and_then (read_name production.number left s)
        (λ z left s. Some (numbered kind z, left, s)))) }
    ensures consumes { Consumes parser.old parser.new result }
{
    parser.count_node()?;
    let number = parser.number()?;
    parser.put_type(Type::Numbered(kind, number))
}

/// Reads `PLAIN_TYPE = base letter | letter of types, and what its row asks for`.
#[cycle(readers)]
#[tactic(auto, using(msvc_cursor::proofs::TypeSteps::plain_type_steps), unfolding(msvc_cursor::proofs::TypeSteps::type_by, msvc_nodes::specs::NodeView::type_of))]
#[inline(always)]
fn plain_type<'a, 'b, L: NodeBudget, A: Allocator>(
    parser: &mut Parser<'a, 'b, L, A>,
    qualifiers: StorageClass,
) -> Result<&'b Type<'a, 'b>, Failed>
    ensures value { ReadsAs type_at parser.old parser.new result (read_name (production.plain_type qualifiers.0)) }
    ensures consumes { Consumes parser.old parser.new result }
{
    let letter = parser.byte()?;
    let both = StorageClass::CONST.union(StorageClass::VOLATILE);
    match letter {
        b'T' => tagged_type(parser, TagKind::Union, TemplateNames::Memorized, qualifiers),
        b'U' => tagged_type(
            parser,
            TagKind::Struct,
            TemplateNames::Memorized,
            qualifiers,
        ),
        b'V' => tagged_type(parser, TagKind::Class, TemplateNames::Memorized, qualifiers),
        b'A' => pointing_type(parser, PointerAffinity::Reference, qualifiers),
        b'B' => pointing_type(parser, PointerAffinity::Reference, StorageClass::VOLATILE),
        b'P' => pointing_type(parser, PointerAffinity::Pointer, qualifiers),
        b'Q' => pointing_type(parser, PointerAffinity::Pointer, StorageClass::CONST),
        b'R' => pointing_type(parser, PointerAffinity::Pointer, StorageClass::VOLATILE),
        b'S' => pointing_type(parser, PointerAffinity::Pointer, both),
        b'Y' => array(parser),
        b'_' => parser.extended_type(qualifiers),
        b'?' => template_parameter(parser),
        _ => parser.type_of_letter(letter, qualifiers),
    }
}

/// Reads `ARRAY = NUMBER {NUMBER} ["$$C" array qualifier] TYPE`: the first number is how many lengths follow. The
/// functions that read the parts before the elements are not inlined, so that arrays of arrays take little stack.
#[cycle(readers)]
#[inline(never)]
fn array<'a, 'b, L: NodeBudget, A: Allocator>(
    parser: &mut Parser<'a, 'b, L, A>,
) -> Result<&'b Type<'a, 'b>, Failed>
    ensures value { ReadsAs type_at parser.old parser.new result (read_name production.array) }
    ensures consumes { Consumes parser.old parser.new result }
{
    let dimension = dimension(parser)?;
    let lengths = lengths(parser, dimension)?;
    let class = array_class(parser)?;
    let element = type_(parser, StorageClass::empty())?;
    nested_arrays(parser, lengths, element, class)
}

/// Reads a number greater than 0.
#[inline(never)]
fn dimension<'a, 'b, L: NodeBudget, A: Allocator>(
    parser: &mut Parser<'a, 'b, L, A>,
) -> Result<u32, Failed>
    ensures value { ReadsAs (λ n. n) parser.old parser.new result (read_name production.dimension) }
    ensures consumes { Consumes parser.old parser.new result }
{
    let dimension = parser.number()?;
    if dimension < 1 {
        return Err(parser.reject(Message::InvalidArrayDimension(dimension)));
    }
    Ok(dimension as u32)
}

/// Reads the qualifiers of each level of an array.
#[inline(never)]
fn array_class<'a, 'b, L: NodeBudget, A: Allocator>(
    parser: &mut Parser<'a, 'b, L, A>,
) -> Result<StorageClass, Failed>
    ensures value { ReadsAs (λ q. q.0) parser.old parser.new result (read array_class) }
    ensures consumes { MayConsume parser.old parser.new result }
{
    if !parser.consume(b"$$C") {
        return Ok(StorageClass::empty());
    }
    let left = parser.rest.len();
    let Some(letter) = parser.next_byte() else {
        return Err(parser.reject_at(Message::UnknownStorageClass, left));
    };
    match letters::array_qualifier(letter) {
        Some(class) => Ok(class),
        None => Err(parser.reject_at(Message::UnknownStorageClass, left)),
    }
}

/// Reads exactly `count` lengths of arrays, and counts each array as a node.
#[inline(never)]
fn lengths<'a, 'b, L: NodeBudget, A: Allocator>(
    parser: &mut Parser<'a, 'b, L, A>,
    count: u32,
) -> Result<&'b [i32], Failed>
    ensures value { ReadsAs (λ zs. zs.now) parser.old parser.new result (read_name (production.lengths count)) }
    ensures consumes { MayConsume parser.old parser.new result }
{
    let mut lengths = Vec::new(parser.arena);
    for _ in 0..count {
        parser.count_node()?;
        let length = parser.number()?;
        if lengths.push(length).is_err() {
            return Err(parser.no_memory());
        }
    }
    Ok(into_bump_slice(lengths))
}

/// Stores an array of these lengths, the outermost first, with qualifiers at each level. It is recursive, since the
/// borrow checker rejects a reference that a loop reassigns.
fn nested_arrays<'a, 'b, L: NodeBudget, A: Allocator>(
    parser: &mut Parser<'a, 'b, L, A>,
    lengths: &[i32],
    element: &'b Type<'a, 'b>,
    class: StorageClass,
) -> Result<&'b Type<'a, 'b>, Failed>
    ensures value { ReadsAs type_at parser.old parser.new result
        (with_value (Some (arrays lengths.now (type_of element.now) class.0))) }
    ensures node { IfOk result (λ t. type_at t ≡ arrays lengths.now (type_of element.now) class.0) }
    ensures state { IfOk result (λ _. state_of parser.new ≡ state_of parser.old) }
    ensures stays { Stays parser.old parser.new result }
    ensures last_error { IfErr result (λ _. parser.new.last_error.reason ≡ Failure.Memory) }
{
    let [length, inner @ ..] = lengths else {
        return Ok(element);
    };
    let inner = nested_arrays(parser, inner, element, class)?;
    parser.put_type(Type::Array(*length, class, inner))
}

/// Reads the negated number of a template parameter.
#[inline(never)]
fn template_parameter<'a, 'b, L: NodeBudget, A: Allocator>(
    parser: &mut Parser<'a, 'b, L, A>,
) -> Result<&'b Type<'a, 'b>, Failed>
    ensures value { ReadsAs type_at parser.old parser.new result
        (λ left s. in_node left s (λ left s. and_then (read_name production.number left s)
        (λ z left s. Some (numbered number_kind.TemplateParameter (int_wrapping_neg w32 z), left, s)))) }
    ensures consumes { Consumes parser.old parser.new result }
{
    parser.count_node()?;
    let number = parser.number()?;
    parser.put_type(Type::Numbered(NumberedType::TemplateParameter, number.wrapping_neg()))
}
