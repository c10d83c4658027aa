//! The tables of keywords and contextual keywords, sorted by length and then by bytes.
ghost use Rattle.std.specs.Prelude.{◌≡◌};
ghost use Rattle.squawk_words.specs.WordHash.{HasSlots};
ghost use Rattle.squawk_words.specs.WordTable.{IsWordTable, IsSpelled, pairs_of, pairs_in};

use crate::slots::{CONTEXTUAL_SLOT_STARTS, CONTEXTUAL_SLOTS, KEYWORD_SLOT_STARTS, KEYWORD_SLOTS};
use squawk_kinds::numbers::Number;

// The names of the tables.
#[derive(Clone, Copy)]
pub(crate) enum Table {
    Keywords,
    ContextualKeywords,
}

// A table of words, sorted by length and then by bytes.
#[derive(Clone, Copy)]
pub(crate) struct Words {
    // The numbers of the words' kinds.
    pub(crate) kinds: &'static [u16],
    // The index of the first word of each length from 0 on, and then the number of words.
    pub(crate) starts: &'static [u16],
    // The words in order, with one byte after each.
    pub(crate) text: &'static [u8],
    // The offset in `text` of the first word of each length from 0 on.
    pub(crate) offsets: &'static [u16],
    // The first slot for each length and first letter.
    pub(crate) slot_starts: &'static [u16],
    // The index of the word in each slot.
    pub(crate) slots: &'static [u16],
}

// The words of a table.
pub(crate) fn words_in(table: Table) -> Words
    ensures same { pairs_of result.kinds.now ≡ pairs_in table }
    ensures table { IsWordTable result.kinds.now result.starts.now }
    ensures spelled { IsSpelled result.kinds.now result.starts.now result.text.now
        result.offsets.now }
    ensures hashed { HasSlots result.kinds.now result.starts.now result.slot_starts.now
        result.slots.now }
{
    match table {
        Table::Keywords => Words {
            kinds: &KEYWORDS,
            starts: &KEYWORD_STARTS,
            text: KEYWORD_TEXT.as_bytes(),
            offsets: &KEYWORD_OFFSETS,
            slot_starts: &KEYWORD_SLOT_STARTS,
            slots: &KEYWORD_SLOTS,
        },
        Table::ContextualKeywords => Words {
            kinds: &CONTEXTUAL_KEYWORDS,
            starts: &CONTEXTUAL_STARTS,
            text: CONTEXTUAL_TEXT.as_bytes(),
            offsets: &CONTEXTUAL_OFFSETS,
            slot_starts: &CONTEXTUAL_SLOT_STARTS,
            slots: &CONTEXTUAL_SLOTS,
        },
    }
}

// An array of the numbers of these kinds.
macro_rules! numbers_of {
    ($($name:ident)*) => {
        [$(Number::$name),*]
    };
}

// The kinds of the keywords in order; each length begins on a line of its own.
#[rattlefmt::skip]
static KEYWORDS: [u16; 511] = numbers_of![
    AS_KW AT_KW BY_KW DO_KW IF_KW IN_KW IS_KW NO_KW OF_KW ON_KW OR_KW TO_KW
    ADD_KW ALL_KW AND_KW ANY_KW ASC_KW BIT_KW CSV_KW DAY_KW DEC_KW END_KW FOR_KW INT_KW KEY_KW LSN_KW NEW_KW NFC_KW
    NFD_KW NOT_KW OFF_KW OLD_KW OUT_KW REF_KW ROW_KW SET_KW SQL_KW XML_KW YES_KW
    ALSO_KW BOTH_KW CALL_KW CASE_KW CAST_KW CHAR_KW COPY_KW COST_KW CUBE_KW DATA_KW DESC_KW DROP_KW EACH_KW EDGE_KW
    ELSE_KW ENUM_KW FROM_KW FULL_KW HOLD_KW HOUR_KW INTO_KW JOIN_KW JSON_KW KEEP_KW KEYS_KW LAST_KW LEFT_KW LIKE_KW
    LOAD_KW LOCK_KW MODE_KW MOVE_KW NAME_KW NEXT_KW NFKC_KW NFKD_KW NODE_KW NONE_KW NULL_KW OIDS_KW OMIT_KW ONLY_KW
    OVER_KW PATH_KW PLAN_KW READ_KW REAL_KW ROLE_KW ROWS_KW RULE_KW SETS_KW SHOW_KW SKIP_KW SOME_KW TEMP_KW TEXT_KW
    THEN_KW TIES_KW TIME_KW TRIM_KW TRUE_KW TYPE_KW USER_KW VIEW_KW WAIT_KW WHEN_KW WITH_KW WORK_KW YEAR_KW ZONE_KW
    ABORT_KW ADMIN_KW AFTER_KW ALTER_KW ARRAY_KW BEGIN_KW CACHE_KW CHAIN_KW CHECK_KW CLASS_KW CLOSE_KW CROSS_KW
    CYCLE_KW DEPTH_KW EMPTY_KW ERROR_KW EVENT_KW FALSE_KW FETCH_KW FIRST_KW FLOAT_KW FORCE_KW GRANT_KW GRAPH_KW
    GROUP_KW ILIKE_KW INDEX_KW INNER_KW INOUT_KW INPUT_KW LABEL_KW LARGE_KW LEAST_KW LEVEL_KW LIMIT_KW LOCAL_KW
    MATCH_KW MERGE_KW MONTH_KW NAMES_KW NCHAR_KW NULLS_KW ORDER_KW OUTER_KW OWNED_KW OWNER_KW PLANS_KW PRIOR_KW
    QUOTE_KW RANGE_KW RESET_KW RIGHT_KW SETOF_KW SHARE_KW SPLIT_KW START_KW STDIN_KW STRIP_KW SYSID_KW TABLE_KW
    TREAT_KW TYPES_KW UNION_KW UNTIL_KW USING_KW VALID_KW VALUE_KW VIEWS_KW WHERE_KW WRITE_KW XMLPI_KW
    ABSENT_KW ACCESS_KW ACTION_KW ALWAYS_KW ATOMIC_KW ATTACH_KW BEFORE_KW BIGINT_KW BINARY_KW CALLED_KW COLUMN_KW
    COMMIT_KW CREATE_KW CURSOR_KW DELETE_KW DETACH_KW DOMAIN_KW DOUBLE_KW ENABLE_KW ESCAPE_KW EXCEPT_KW EXISTS_KW
    FAMILY_KW FILTER_KW FORMAT_KW FREEZE_KW GLOBAL_KW GROUPS_KW HAVING_KW HEADER_KW IGNORE_KW IMPORT_KW INDENT_KW
    INLINE_KW INSERT_KW ISNULL_KW LISTEN_KW LOCKED_KW LOGGED_KW METHOD_KW MINUTE_KW NESTED_KW NOTIFY_KW NOWAIT_KW
    NULLIF_KW OBJECT_KW OFFSET_KW OPTION_KW OTHERS_KW PARSER_KW PERIOD_KW POLICY_KW QUOTES_KW RENAME_KW REPACK_KW
    RETURN_KW REVOKE_KW ROLLUP_KW SCALAR_KW SCHEMA_KW SCROLL_KW SEARCH_KW SECOND_KW SELECT_KW SERVER_KW SIMPLE_KW
    SOURCE_KW STABLE_KW STDOUT_KW STORED_KW STRICT_KW STRING_KW SYSTEM_KW TABLES_KW TARGET_KW UNIQUE_KW UPDATE_KW
    VACUUM_KW VALUES_KW VERTEX_KW WINDOW_KW WITHIN_KW
    ANALYSE_KW ANALYZE_KW BETWEEN_KW BOOLEAN_KW BREADTH_KW CASCADE_KW CATALOG_KW CLUSTER_KW COLLATE_KW COLUMNS_KW
    COMMENT_KW CONTENT_KW CURRENT_KW DECIMAL_KW DECLARE_KW DEFAULT_KW DEFINER_KW DEPENDS_KW DISABLE_KW DISCARD_KW
    EXCLUDE_KW EXECUTE_KW EXPLAIN_KW EXTRACT_KW FOREIGN_KW FORWARD_KW GRANTED_KW HANDLER_KW INCLUDE_KW INDEXES_KW
    INHERIT_KW INSTEAD_KW INTEGER_KW INVOKER_KW LATERAL_KW LEADING_KW MAPPING_KW MATCHED_KW NATURAL_KW NOTHING_KW
    NOTNULL_KW NUMERIC_KW OBJECTS_KW OPTIONS_KW OVERLAY_KW PARTIAL_KW PASSING_KW PLACING_KW PORTION_KW PREPARE_KW
    PRIMARY_KW PROGRAM_KW REFRESH_KW REINDEX_KW RELEASE_KW REPLACE_KW REPLICA_KW RESPECT_KW RESTART_KW RETURNS_KW
    ROUTINE_KW SCHEMAS_KW SESSION_KW SIMILAR_KW STORAGE_KW SUPPORT_KW TRIGGER_KW TRUSTED_KW UESCAPE_KW UNKNOWN_KW
    VARCHAR_KW VARYING_KW VERBOSE_KW VERSION_KW VIRTUAL_KW WITHOUT_KW WRAPPER_KW XMLROOT_KW
    ABSOLUTE_KW BACKWARD_KW CASCADED_KW COALESCE_KW COMMENTS_KW CONFLICT_KW CONTINUE_KW DATABASE_KW DEFAULTS_KW
    DEFERRED_KW DISTINCT_KW DOCUMENT_KW ENCODING_KW ENFORCED_KW EXTERNAL_KW FINALIZE_KW FUNCTION_KW GREATEST_KW
    GROUPING_KW IDENTITY_KW IMPLICIT_KW INHERITS_KW INTERVAL_KW LANGUAGE_KW LOCATION_KW MAXVALUE_KW MINVALUE_KW
    NATIONAL_KW OPERATOR_KW OVERLAPS_KW PARALLEL_KW PASSWORD_KW POSITION_KW PREPARED_KW PRESERVE_KW PROPERTY_KW
    REASSIGN_KW RELATIVE_KW RESTRICT_KW ROLLBACK_KW ROUTINES_KW SECURITY_KW SEQUENCE_KW SMALLINT_KW SNAPSHOT_KW
    TEMPLATE_KW TRAILING_KW TRUNCATE_KW UNLISTEN_KW UNLOGGED_KW VALIDATE_KW VARIADIC_KW VOLATILE_KW XMLPARSE_KW
    XMLTABLE_KW
    AGGREGATE_KW ASSERTION_KW ATTRIBUTE_KW CHARACTER_KW COLLATION_KW COMMITTED_KW DELIMITER_KW ENCRYPTED_KW
    EXCLUDING_KW EXCLUSIVE_KW EXTENSION_KW FOLLOWING_KW FUNCTIONS_KW GENERATED_KW IMMEDIATE_KW IMMUTABLE_KW
    INCLUDING_KW INCREMENT_KW INITIALLY_KW INTERSECT_KW ISOLATION_KW LEAKPROOF_KW LOCALTIME_KW NORMALIZE_KW
    PARAMETER_KW PARTITION_KW PRECEDING_KW PRECISION_KW PROCEDURE_KW RECURSIVE_KW RETURNING_KW SAVEPOINT_KW
    SEQUENCES_KW STATEMENT_KW SUBSTRING_KW SYMMETRIC_KW TEMPORARY_KW TIMESTAMP_KW TRANSFORM_KW UNBOUNDED_KW
    VALIDATOR_KW XMLCONCAT_KW XMLEXISTS_KW XMLFOREST_KW
    ASENSITIVE_KW ASSIGNMENT_KW ASYMMETRIC_KW CHECKPOINT_KW CONNECTION_KW CONSTRAINT_KW CONVERSION_KW DEALLOCATE_KW
    DEFERRABLE_KW DELIMITERS_KW DICTIONARY_KW EXPRESSION_KW JSON_ARRAY_KW JSON_QUERY_KW JSON_TABLE_KW JSON_VALUE_KW
    NORMALIZED_KW ORDINALITY_KW OVERRIDING_KW PARTITIONS_KW PRIVILEGES_KW PROCEDURAL_KW PROCEDURES_KW PROPERTIES_KW
    REFERENCES_KW REPEATABLE_KW STANDALONE_KW STATISTICS_KW TABLESPACE_KW WHITESPACE_KW XMLELEMENT_KW
    COMPRESSION_KW CONDITIONAL_KW CONSTRAINTS_KW DESTINATION_KW GRAPH_TABLE_KW INSENSITIVE_KW JSON_EXISTS_KW
    JSON_OBJECT_KW JSON_SCALAR_KW PUBLICATION_KW REFERENCING_KW SYSTEM_USER_KW TABLESAMPLE_KW TRANSACTION_KW
    UNCOMMITTED_KW UNENCRYPTED_KW
    CONCURRENTLY_KW CURRENT_DATE_KW CURRENT_ROLE_KW CURRENT_TIME_KW CURRENT_USER_KW MATERIALIZED_KW MERGE_ACTION_KW
    RELATIONSHIP_KW SERIALIZABLE_KW SESSION_USER_KW SUBSCRIPTION_KW XMLSERIALIZE_KW
    AUTHORIZATION_KW CONFIGURATION_KW JSON_ARRAYAGG_KW UNCONDITIONAL_KW XMLATTRIBUTES_KW XMLNAMESPACES_KW
    CURRENT_SCHEMA_KW JSON_OBJECTAGG_KW JSON_SERIALIZE_KW LOCALTIMESTAMP_KW
    CHARACTERISTICS_KW CURRENT_CATALOG_KW
    CURRENT_TIMESTAMP_KW
];

// The index of the first keyword of each length, and the number of keywords.
#[rattlefmt::skip]
static KEYWORD_STARTS: [u16; 19] = [
    0, 0, 0, 12, 39, 109, 180, 262, 340, 395, 439, 470, 486, 498, 504, 508, 510, 510, 511,
];

// The keywords in order, with one byte after each.
#[rattlefmt::skip]
const KEYWORD_TEXT: &str = "\
as at by do if in is no of on or to
add all and any asc bit csv day dec end for int key lsn new nfc nfd not off old out ref row set sql xml yes
also both call case cast char copy cost cube data desc drop each edge else enum from full hold hour into join json
keep keys last left like load lock mode move name next nfkc nfkd node none null oids omit only over path plan read
real role rows rule sets show skip some temp text then ties time trim true type user view wait when with work year
zone
abort admin after alter array begin cache chain check class close cross cycle depth empty error event false fetch
first float force grant graph group ilike index inner inout input label large least level limit local match merge
month names nchar nulls order outer owned owner plans prior quote range reset right setof share split start stdin
strip sysid table treat types union until using valid value views where write xmlpi
absent access action always atomic attach before bigint binary called column commit create cursor delete detach domain
double enable escape except exists family filter format freeze global groups having header ignore import indent inline
insert isnull listen locked logged method minute nested notify nowait nullif object offset option others parser period
policy quotes rename repack return revoke rollup scalar schema scroll search second select server simple source stable
stdout stored strict string system tables target unique update vacuum values vertex window within
analyse analyze between boolean breadth cascade catalog cluster collate columns comment content current decimal
declare default definer depends disable discard exclude execute explain extract foreign forward granted handler
include indexes inherit instead integer invoker lateral leading mapping matched natural nothing notnull numeric
objects options overlay partial passing placing portion prepare primary program refresh reindex release replace
replica respect restart returns routine schemas session similar storage support trigger trusted uescape unknown
varchar varying verbose version virtual without wrapper xmlroot
absolute backward cascaded coalesce comments conflict continue database defaults deferred distinct document encoding
enforced external finalize function greatest grouping identity implicit inherits interval language location maxvalue
minvalue national operator overlaps parallel password position prepared preserve property reassign relative restrict
rollback routines security sequence smallint snapshot template trailing truncate unlisten unlogged validate variadic
volatile xmlparse xmltable
aggregate assertion attribute character collation committed delimiter encrypted excluding exclusive extension
following functions generated immediate immutable including increment initially intersect isolation leakproof
localtime normalize parameter partition preceding precision procedure recursive returning savepoint sequences
statement substring symmetric temporary timestamp transform unbounded validator xmlconcat xmlexists xmlforest
asensitive assignment asymmetric checkpoint connection constraint conversion deallocate deferrable delimiters
dictionary expression json_array json_query json_table json_value normalized ordinality overriding partitions
privileges procedural procedures properties references repeatable standalone statistics tablespace whitespace
xmlelement
compression conditional constraints destination graph_table insensitive json_exists json_object json_scalar
publication referencing system_user tablesample transaction uncommitted unencrypted
concurrently current_date current_role current_time current_user materialized merge_action relationship serializable
session_user subscription xmlserialize
authorization configuration json_arrayagg unconditional xmlattributes xmlnamespaces
current_schema json_objectagg json_serialize localtimestamp
characteristics current_catalog
current_timestamp
";

// The offset in `KEYWORD_TEXT` of the first keyword of each length.
#[rattlefmt::skip]
static KEYWORD_OFFSETS: [u16; 18] = [
    0, 0, 0, 36, 144, 494, 920, 1494, 2118, 2613, 3053, 3394, 3586, 3742, 3826, 3886, 3918, 3918,
];

// The kinds of the contextual keywords in order.
#[rattlefmt::skip]
static CONTEXTUAL_KEYWORDS: [u16; 49] = numbers_of![
    GET_KW LOG_KW
    DUMP_KW EXIT_KW HINT_KW INFO_KW LOOP_KW OPEN_KW
    ALIAS_KW DEBUG_KW ELSIF_KW QUERY_KW RAISE_KW SLICE_KW WHILE_KW
    ASSERT_KW DETAIL_KW ELSEIF_KW NOTICE_KW
    ERRCODE_KW FOREACH_KW MESSAGE_KW PERFORM_KW REVERSE_KW ROWTYPE_KW STACKED_KW WARNING_KW
    CONSTANT_KW DATATYPE_KW SQLSTATE_KW
    EXCEPTION_KW ROW_COUNT_KW
    PG_CONTEXT_KW TABLE_NAME_KW USE_COLUMN_KW
    COLUMN_NAME_KW DIAGNOSTICS_KW SCHEMA_NAME_KW
    MESSAGE_TEXT_KW USE_VARIABLE_KW
    PG_ROUTINE_OID_KW
    CONSTRAINT_NAME_KW
    PG_DATATYPE_NAME_KW
    PG_EXCEPTION_HINT_KW RETURNED_SQLSTATE_KW VARIABLE_CONFLICT_KW
    PG_EXCEPTION_DETAIL_KW PRINT_STRICT_PARAMS_KW
    PG_EXCEPTION_CONTEXT_KW
];

// The index of the first contextual keyword of each length, and their number.
#[rattlefmt::skip]
static CONTEXTUAL_STARTS: [u16; 22] = [
    0, 0, 0, 0, 2, 8, 15, 19, 27, 30, 32, 35, 38, 40, 40, 41, 42, 43, 46, 46, 48, 49,
];

// The contextual keywords in order, with one byte after each.
#[rattlefmt::skip]
const CONTEXTUAL_TEXT: &str = "\
get log
dump exit hint info loop open
alias debug elsif query raise slice while
assert detail elseif notice
errcode foreach message perform reverse rowtype stacked warning
constant datatype sqlstate
exception row_count
pg_context table_name use_column
column_name diagnostics schema_name
message_text use_variable
pg_routine_oid
constraint_name
pg_datatype_name
pg_exception_hint returned_sqlstate variable_conflict
pg_exception_detail print_strict_params
pg_exception_context
";

// The offset in `CONTEXTUAL_TEXT` of the first contextual keyword of each length.
#[rattlefmt::skip]
static CONTEXTUAL_OFFSETS: [u16; 21] = [
    0, 0, 0, 0, 8, 38, 80, 108, 172, 199, 219, 252, 288, 314, 314, 329, 345, 362, 416, 416, 456,
];
