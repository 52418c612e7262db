// The operator codes that have a rule, in order of first mention in `expr`. A rule has its operator's code as its number.

pub const ARRAY: u8 = 1;

pub const ARRAY_VARIABLE: u8 = 2;

pub const EXPRESSION_ARRAY: u8 = 3;

pub const GEOMETRY_VARIABLE: u8 = 4;

pub const MATERIAL_VARIABLE: u8 = 5;

pub const TEXTURE_VARIABLE: u8 = 6;

pub const FLOAT: u8 = 7;

pub const STRING_LITERAL: u8 = 8;

pub const GEOMETRY: u8 = 9;

pub const MATERIAL: u8 = 10;

pub const TEXTURE: u8 = 11;

pub const THIS: u8 = 12;

pub const ENTITY_VARIABLE: u8 = 13;

pub const TEMP_VARIABLE: u8 = 14;

pub const CONTEXT_VARIABLE: u8 = 15;

pub const MEMBER_ACCESSOR: u8 = 16;

pub const QUERY_FUNCTION: u8 = 17;

pub const LESS_THAN: u8 = 18;

pub const LESS_EQUAL: u8 = 19;

pub const GREATER_EQUAL: u8 = 20;

pub const GREATER_THAN: u8 = 21;

pub const LOGICAL_EQUAL: u8 = 22;

pub const LOGICAL_NOT_EQUAL: u8 = 23;

pub const LOGICAL_AND: u8 = 24;

pub const LOGICAL_OR: u8 = 25;

pub const NULL_COALESCING: u8 = 26;

pub const CONDITIONAL: u8 = 27;

pub const SEMICOLON: u8 = 28;

pub const LOOP: u8 = 29;

pub const FOR_EACH: u8 = 30;

pub const BREAK: u8 = 31;

pub const CONTINUE: u8 = 32;

pub const ASSIGNMENT: u8 = 33;

pub const POINTER: u8 = 34;

pub const LEFT_BRACKET: u8 = 35;

pub const LEFT_PARENTHESIS: u8 = 36;

pub const NEGATE: u8 = 37;

pub const LOGICAL_NOT: u8 = 38;

pub const ADD: u8 = 39;

pub const MUL: u8 = 40;

pub const DIV: u8 = 41;

pub const HOST_MATH: u8 = 42;

pub const HOST_MATH_VOLATILE: u8 = 43;

pub const RETURN: u8 = 44;

pub const PI: u8 = 45;

pub const LEFT_BRACE: u8 = 46;

pub const RIGHT_BRACE: u8 = 47;

pub const RIGHT_BRACKET: u8 = 48;

pub const RIGHT_PARENTHESIS: u8 = 49;

pub const CONDITIONAL_ELSE: u8 = 50;

pub const COMMA: u8 = 51;
