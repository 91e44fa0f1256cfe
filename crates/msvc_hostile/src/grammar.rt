//! The crate's grammar as tables of rows, from which `written` generates texts.
//!
//! A text is read as it was generated, since the text in place of an optional part begins with none of its letters: the
//! rows of a table whose name ends in `clear` begin with no letter of a storage class and no `?`.

/// The tables of the crate's grammar.
pub const TABLES: &str = "
# Symbols. Only a whole text can end before a type, an index, or the end of parameters.
text = ? function_name scope encoding | ? symbol | ? symbol_at_the_end
symbol = function_name scope encoding | other_symbol
other_symbol = guard_name scope guard_marker guard_index encoding | $ template | $TSS guard_number @ nested_name \
    scope 4HA | ?@ eight_hex eight_hex eight_hex eight_hex @
symbol_at_the_end = function_name scope | guard_name scope guard_marker | $ template_begins class_name \
    parameters_to_the_end
guard_name = ?_B | ?__J
guard_marker = 5 | 4IA
guard_index = digit | @ | half @ | half half half @ | HPPPPPPP@
guard_number = digit | digit digit digit | 2147483647
eight_hex = hex hex hex hex hex hex hex hex
hex = 0 | 1 | 2 | 3 | 4 | 5 | 6 | 7 | 8 | 9 | a | b | c | d | e | f | A | B | C | D | E | F

# Encodings.
encoding = 9 | variable type | variable type storage | Y convention returned function_parameters \
    | static_class convention signature | member_class own_convention signature \
    | thunk_class number own_convention signature | _0 string | _1 string | other_encoding
other_encoding = 8 | class_table scope | class_table qualifier scope | $B number A convention \
    | _0 CB@ number eight eight eight eight | _1 EB@ number eight eight eight eight eight eight eight eight
variable = 0 | 1 | 2 | 3 | 4
class_table = 6 | 7
static_class = C | D | K | L | S | T
member_class = member_class_but_e | E
member_class_but_e = A | B | F | I | J | M | N | Q | R | U | V | Z
thunk_class = G | H | O | P | W | X
signature = @ function_parameters | returned function_parameters
returned = certain_type | ? return_qualifier type
return_qualifier = A | B | C | D
convention = A | B | C | E | G | I
late_convention = E | G | I

# A function's qualifiers and its convention.
own_convention = own_e own_i own_f own_reference qualifier convention | own_e own_i own_f reference late_convention \
    | own_e own_i F convention_after_f | own_e I convention_after_f | E E
convention_after_f = E | I
own_e = | E
own_i = | I
own_f = | F
own_reference = | reference
reference = G | H
qualifier = A | B | C | D | Q | R | S | T
storage = A | B | C | D | E | F | G | H | Q | R | S | T
storage_without_e = A | B | C | D | F | G | H | Q | R | S | T

# Parameters. Void begins no list of a function's.
function_parameters = X Z | parameters_end Z | known_parameter parameters Z
parameters = parameters_end | parameter parameters | parameter parameter parameters | ten_pointers parameters
ten_pointers = pointer pointer pointer pointer pointer pointer pointer pointer pointer pointer \
    P storage_without_e known_type type_done
pointer = P storage_without_e letter type_done | P storage_without_e letter_clear type_done
parameters_end = @ | Z
parameters_to_the_end = | parameter parameters_to_the_end
parameter = known_parameter | X
known_parameter = new_parameter | 0 | 1 | 2 | 3 | 4 | 5 | 6 | 7 | 8 | 9
new_parameter = letter_clear | letter | long_type type_done

# Numbers.
number = digit | ? digit | letters @ | ? letters @
letters = | half letters
half = A | B | C | D | E | F | G | H | I | J | K | L | M | N | O | P
digit = 0 | 1 | 2 | 3 | 4 | 5 | 6 | 7 | 8 | 9
later_half = B | C | D | E | F | G | H | I | J | K | L | M | N | O | P

# Names.
function_name = known_name | @ name_done | ? operator | ?$ template
any_function_name = known_name | @ name_done | ? operator | guard_name | ?$ template
class_name = known_name | @ name_done | ? operator | guard_name | ?$ template name_done
scope = @ | nested_name @ | nested_name scope | ten_names known_name scope
ten_names = new_name new_name new_name new_name new_name new_name new_name new_name new_name new_name
nested_name = known_name | ?? symbol | ?$ template name_done | ?A@ | ?A0x @ name_done | ?A0x hex @ name_done \
    | ?A0x eight_hex @ name_done | ?Q@@ name_done | ?Q source_name @ name_done | ?@ | ? digit \
    | ? later_half letters @
template = template_begins class_name parameters template_ends
known_name = new_name | 0 | 1 | 2 | 3 | 4 | 5 | 6 | 7 | 8 | 9
new_name = source_name name_done
source_name = small @ | small small @ | small other_character @
other_character = 1 | _ | $ | ? | O | \u{E9} | \u{20AC}
small = a | b | c | d | e | f | g | h | i | j | k | l | m | n | o | p | q | r | s | t | u | v | w | x | y | z

# Special names.
operator = operator_letter | _ letter_after_one | __ letter_after_two | _R0? clear | _R0? storage type \
    | _R1 number number number number | _R letter_after_r
operator_letter = 0 | 1 | 2 | 3 | 4 | 5 | 6 | 7 | 8 | 9 | A | B | C | D | E | F | G | H | I | J | K | L | M | N \
    | O | P | Q | R | S | T | U | V | W | X | Y | Z
letter_after_one = 0 | 1 | 2 | 3 | 4 | 5 | 6 | 7 | 8 | 9 | A | C | D | E | F | G | H | I | J | K | L | M | N \
    | O | S | T | U | V | X | Y
letter_after_two = E | F | K | L
letter_after_r = 2 | 3 | 4

# Types. A type that is certain begins with no question mark.
type = certain_type | ? number
certain_type = clear | letter | long | A6 function_type | known_type
clear = plain_clear | form_clear | member_form | $ dropped
plain = plain_clear | letter | long | ? number | known_type
plain_clear = letter_clear | X | long_clear
long_type = long_clear | long | form_clear | member_form | $ dropped | A6 function_type | ? number
letter_clear = I | J | K | M | N | O
letter = C | D | E | F | G | H
long_clear = _ extended | U class_name scope | V class_name scope | P pointee | Y array
long = T class_name scope | A pointee | B pointee | Q pointee | R pointee | S pointee
extended = N | W | Q | S | U | J | K | L | M
form_clear = $S | $$V | $$Z | $$$V | $$T | $0 number | $D number | W4 class_name scope | P6 function_type \
    | $$BY array | $$Q pointee | $$A6 function_type | $$A8@@ own_convention function_result function_parameters \
    | $$Y any_function_name scope | $$C plain_clear | $$C qualifier plain
pointer_to_member = own_e qualifier convention signature | E late_convention signature | bare_convention signature
bare_convention = G | I
member_form = P8 any_function_name scope pointer_to_member \
    | member_code any_function_name scope class_part convention signature
member_code = $1? | $H? | $I? | $J?
class_part = class_but_e | E class_but_e | E E
class_but_e = member_class_but_e | static_class | thunk_class number | Y
dropped = dropped_letter | ? number | _ extended | long_clear | dropped_long
dropped_letter = X | C | E | F | G | K | M | N | O
dropped_long = T class_name scope | A pointee | B pointee | Q pointee | R pointee
pointee = clear | E clear | storage_without_e type | E storage type
array = lengths plain | lengths $$C array_qualifier type
lengths = 0 number | B@ number | 1 number number | C@ number number | 2 number number number
array_qualifier = A | B | C | D
function_type = convention function_result function_parameters
function_result = certain_type | ? clear | ? storage type
known_type = letter_clear | 0 | 1 | 2 | 3 | 4 | 5 | 6 | 7 | 8 | 9

# Strings.
string = @ number | A@ number | ? digit number | 0 number character | 1 number character character \
    | 9 number character character character character character character character character character character
eight = plain_character plain_character plain_character plain_character plain_character plain_character \
    plain_character plain_character
character = plain_character | ? letter_of_a_string | ? sign | ?$ half half
plain_character = 0 | 1 | 2 | 3 | 4 | 5 | 6 | 7 | 8 | 9 | a | b | c | d | e | f | g | h | i | j | k | l | m | n \
    | o | p | q | r | s | t | u | v | w | x | y | z | A | B | C | D | E | F | G | H | I | J | K | L | M | N | O \
    | P | Q | R | S | T | U | V | W | X | Y | Z | _ | $
letter_of_a_string = a | b | c | d | e | f | g | h | i | j | k | l | m | n | o | p | q | r | s | t | u | v | w | \
    x | y | z | A | B | C | D | E | F | G | H | I | J | K | L | M | N | O | P | Q | R | S | T | U | V | W | X | \
    Y | Z
sign = 0 | 1 | 2 | 3 | 4 | 5 | 6 | 7 | 8 | 9
";
