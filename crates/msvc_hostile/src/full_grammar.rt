//! The grammar Full as tables of rows, from which `written` generates texts.
//!
//! A text is read as it was generated: a table whose name begins with `certain` has no row that begins with `?`, and a
//! type is plain, a pointer, or a pointer to a member, since other bytes follow the type of a variable of each.

/// The tables of Full.
pub const TABLES: &str = "
# Symbols. Only a whole text can end after a scope. The name of a template is memorized if a variable follows.
text = ? symbol | ? symbol_at_the_end | ??@ key @ | ??@ key @??_R4@ | . result_type | funclet
funclet = funclet_letters rest @ funclet_home
funclet_letters = ?catch$ | ?dtor$ | ?filt$ | ?fin$
funclet_home = ?0? funclet_function | 0@ named scope
funclet_function = start rest @4HA | ? symbol @4HA | funclet @4HA
symbol = named scope encoding | unnamed | ?$ template scope function_or_c \
    | ?$ template scope variable_kind name_done variable
symbol_at_the_end = named scope | ?$ template scope
named = known_name | ? operator
encoding = 9 | variable_kind variable | function | table | 8 | $B number A convention | $C type_symbol
function_or_c = 9 | function
table = table_letter qualifier @ | table_letter qualifier type_symbol @ \
    | table_letter qualifier type_symbol type_symbol @
table_letter = 6 | 7

# Symbols without a name of the source. Inside another symbol a guard has an index. ?$ in a stub begins a template.
unnamed = ?@ key @ | ?_C@_ width count key @ string_bytes @ | ?_R0 result_type @8 | ?_B scope marker count \
    | ?__J scope marker count | ?__E stubbed function | ?__F stubbed function | ?__N value @
stubbed = known_name scope | known_name scope variable_kind variable @ \
    | ? a@ name_done scope variable_kind variable @@ | ?? operator scope variable_kind variable @@ \
    | ?$ template scope | ?$ template scope variable_kind name_done variable @ \
    | ??$ template scope variable_kind name_done variable @@
width = 0 | 1
string_bytes = | string_byte string_bytes | string_byte string_byte string_bytes
string_byte = a | 0 | _ | ?0 | ?9 | ?a | ?Z | ?$AA | ?$HP | ?$OB | \u{E9}
marker = 5 | 4IA

# Variables.
variable_kind = 0 | 1 | 2 | 3 | 4
variable = plain qualifier | pointer marks qualifier | member_pointer marks qualifier repeated_class
repeated_class = repeated_name repeated_scope
repeated_scope = @ | repeated_name repeated_scope
repeated_name = known_name | ?A@ | ?A0x key @ name_done | ?A0x key capital key @

# Functions.
function = any_function | $$J0 any_function | $$F any_function | $$H any_function | $$h any_function
any_function = Y function_type | free_class function_type | member_class own_qualifiers function_type \
    | moved own_qualifiers function_type
moved = adjustor_class number | $ moved_class number number | $R moved_class number number number number
adjustor_class = G | H | O | P | W | X
moved_class = 0 | 1 | 2 | 3 | 4 | 5
free_class = C | D | K | L | S | T | Z
member_class = A | B | E | F | I | J | M | N | Q | R | U | V
function_type = convention returned parameters throws
convention = A | B | C | D | E | F | G | H | I | J | M | N | O | P | Q | S | U | V | W | w | x
returned = @ | result_type
result_type = certain_type | ? qualifier type
throws = Z | _E
own_qualifiers = marks own_reference qualifier | marks $A own_reference qualifier
own_reference = | G | H
marks = mark_e mark_i mark_f
mark_e = | E
mark_i = | I
mark_f = | F
qualifier = qualifier_of_data | qualifier_of_members
qualifier_of_data = A | B | C | D
qualifier_of_members = Q | R | S | T

# Parameters. Void begins no list.
parameters = X | parameters_end | known_parameter more_parameters | ten_pointers more_parameters \
    | _V known_parameter more_parameters
more_parameters = parameters_end | parameter more_parameters | parameter parameter more_parameters
parameters_end = @ | Z
parameter = known_parameter | X
known_parameter = new_parameter | 0 | 1 | 2 | 3 | 4 | 5 | 6 | 7 | 8 | 9
new_parameter = letter | long_type type_done
ten_pointers = pointer_to C type_done pointer_to D type_done pointer_to E type_done pointer_to F type_done \
    pointer_to G type_done pointer_to H type_done pointer_to I type_done pointer_to J type_done \
    pointer_to K type_done pointer_to M type_done known_parameter
pointer_to = pointer_letter qualifier_of_data | A qualifier

# Types.
type = letter | X | long_type
certain_type = letter | X | certain_long
long_type = certain_long | custom
certain_long = certain_plain_long | pointer | member_pointer
plain = letter | X | certain_plain_long | custom
certain_plain_long = _ extended | tag type_symbol | Y lengths element | $$A6 function_type \
    | $$A8@@ own_qualifiers function_type | $$T | $$B plain | $$C qualifier plain
letter = C | D | E | F | G | H | I | J | K | M | N | O
extended = N | W | Q | S | U | J | K | L | M | P | T
tag = T | U | V | W4
custom = ? type_name @
lengths = 0 count | B@ count | 1 count count | C@ count count | 2 count count count
element = type | $$C qualifier type

# Pointers. Only pointers by these letters point to members.
pointer = pointer_letter marks qualifier_of_data type | reference marks qualifier type \
    | pointer_letter 6 function_type | reference 6 function_type | $$B pointer | $$C qualifier pointer \
    | pointer_letter _E function_type | pointer_letter marks managed qualifier type \
    | reference marks managed qualifier type
managed = $A | $B | $C | $0 digit
pointer_letter = P | Q | R | S
reference = A | B | $$Q
member_pointer = pointer_letter marks qualifier_of_members type_symbol type \
    | pointer_letter 8 type_symbol own_qualifiers function_type | $$B member_pointer | $$C qualifier member_pointer

# Names.
type_symbol = type_name scope
type_name = known_name | ?$ template name_done
scope = @ | nested_name @ | nested_name scope | ten_names known_name scope
nested_name = type_name | ?A@ | ?A0x key @ name_done | ?A0x key capital key @ | ? frame_count ?? symbol \
    | ?Q type_symbol | ?? symbol
key = | hexadecimal | hexadecimal hexadecimal hexadecimal
hexadecimal = 0 | 1 | 2 | 3 | 4 | 5 | 6 | 7 | 8 | 9 | a | b | c | d | e | f
capital = A | B | C | D | E | F
ten_names = a@ name_done b@ name_done c@ name_done d@ name_done e@ name_done f@ name_done g@ name_done \
    h@ name_done i@ name_done j@ name_done
known_name = new_name | 0 | 1 | 2 | 3 | 4 | 5 | 6 | 7 | 8 | 9
new_name = start rest @ name_done
start = a | b | z | A | Z | _ | $ | < | \u{E9}
rest = | a | z | 0 | ? | $ | _ | > | O | \u{20AC}

# Operators.
operator = operator_letter | _ letter_after_one | __ letter_after_two | __K literal rest @ name_done \
    | _R1 number number number number | _R2 | _R3 | _R4
operator_letter = 0 | 1 | 2 | 3 | 4 | 5 | 6 | 7 | 8 | 9 | A | B | C | D | E | F | G | H | I | J | K | L | M | N \
    | O | P | Q | R | S | T | U | V | W | X | Y | Z
letter_after_one = 0 | 1 | 2 | 3 | 4 | 5 | 6 | 7 | 8 | 9 | A | D | E | F | G | H | I | J | K | L | M | N | O | S | T \
    | U | V | X | Y
letter_after_two = A | B | C | D | G | H | I | L | M
literal = start | 7

# Templates.
template = template_begins template_name arguments template_ends
template_name = named | ?$ template
arguments = @ | argument arguments | argument argument arguments
argument = type | $S | $$V | $$$V | $$Z | $$Y type_symbol | $ value | $M type value
value = 0 number | 1? symbol | E? symbol | F number number | G number number number | H member_offsets \
    | I member_offsets number | J member_offsets number number | bits count | N | 2 type members | 3 type elements \
    | 5 value @ | 6 value type_name @ | C value 0 number @ | 7 type @ | 7 type type_name value @ | 8 scope type_name @
bits = A | B | V | W | X | Y | Z
members = @ | member members | member member members
member = 0 number | type @ | type value | 2 type members | 3 type elements | 7 type @ | 7 type type_name value @
elements = @ | value @ elements
member_offsets = count | ? symbol number

# Numbers. They stay below 2^31, also with letters before the last sixteen, which don't count.
number = count | ? count
count = digit | @ | half @ | half half half @ | at_most_eight @ | half AAAAAAAA at_most_eight @
frame_count = digit | @ | later_half @ | later_half half half @ | later_half AAAAAAAA at_most_eight @
at_most_eight = low_half half half half half half half half
digit = 0 | 1 | 2 | 3 | 4 | 5 | 6 | 7 | 8 | 9
half = A | B | C | D | E | F | G | H | I | J | K | L | M | N | O | P
later_half = B | C | D | E | F | G | H | I | J | K | L | M | N | O | P
low_half = A | B | C | D | E | F | G | H
";
