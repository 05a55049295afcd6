//! The beginning of the C text: what it is, and what the statements are written with.

/// The head of the file, and the declarations that the program's own part needs.
///
/// The headers of C and MPI come behind the program's part. So none of their macros can stand for
/// one of its names.
pub(crate) const HEAD: &str = r#"// A rank program as a program for MPI, written by `ftmpi c`.
//
//   mpicc -std=c99 -o program program.c
//   mpirun -np 4 ./program [--outcome FILE]
//
// Each rank runs `run_program`, which has the statements of the rank program, each
// below its line. Its variables and arrays are members of `my`; a name that C may have
// for itself ends in `_of_this_program`. The rest of this file is the same for every
// program. The headers come last, so none of their macros stands for a member.
//
// When all ranks have ended, rank 0 prints what each rank printed, and how it ended.
// The status is 0 if each rank halted, else 1. With `--outcome FILE` rank 0 also writes
// which message each reception took, what each probe found, and each print.
//
// This is C99 with calls of MPI 1.1 alone (MPI Forum, MPI: A Message-Passing Interface
// Standard, version 1.1, 1995). `long long` has 64 bits, and MPI_LONG_LONG_INT, which is
// optional in MPI 1.1, is there.
//
// What MPI can't say, or says otherwise:
// - A rank whose message never comes waits forever, and so do all. No rank is `stalled`.
// - Steps, receptions and acts are not limited. No rank is `unfinished`.
// - A crash of a rank is what the MPI library makes of it.
// - If memory is refused, all ranks are aborted with status 4.

// A value of an expression, or the first fault from left to right (0: none). An
// expression changes nothing, so C may evaluate operands in any order.
struct value {
    long long number;
    int fault;
};

// A source or a tag: any, or this value.
struct pattern {
    int is_any;
    struct value value;
};

// How `reduce` combines two values, by the number of its kind in packets.
enum reduction { BY_SUM = 2, BY_MAX = 3, BY_MIN = 4 };

// A variable, or a whole array: its first item, and how many items it has.
#define ALL_OF(name) (long long *) &(name), (int) (sizeof (name) / sizeof (long long))

// What a rank can only read: its number, how many ranks there are, and the source, the
// tag and the number of items of the last message.
static struct {
    long long rank, size, source, gottag, count;
} self;

static struct value number(long long number);
static struct value item_of(const long long *array, int length, struct value index);
static struct value negative_of(struct value operand);
static struct value sum_of(struct value left, struct value right);
static struct value difference_of(struct value left, struct value right);
static struct value product_of(struct value left, struct value right);
static struct value quotient_of(struct value left, struct value right);
static struct value remainder_of(struct value left, struct value right);
static struct value is_equal(struct value left, struct value right);
static struct value is_unequal(struct value left, struct value right);
static struct value is_less(struct value left, struct value right);
static struct value is_at_most(struct value left, struct value right);
static struct value is_greater(struct value left, struct value right);
static struct value is_at_least(struct value left, struct value right);
static struct pattern any(void);
static struct pattern exactly(struct value value);

// One for each statement. A statement that has a fault ends the rank.
static void declare(long long *buffer, int length);
static void set_variable(long long *variable, struct value value);
static void set_item(long long *array, int length, struct value index, struct value value);
static int is_nonzero(struct value test);
static void send_value(struct value destination, struct value tag, struct value value);
static void send_items(struct value destination, struct value tag, const long long *items, int count);
static void receive_items(struct pattern source, struct pattern tag, long long *buffer, int length);
static void await_message(struct pattern source, struct pattern tag);
static void find_message(struct pattern source, struct pattern tag, long long *flag);
static void print_value(struct value value);
static void make_barrier(void);
static void make_broadcast(struct value root, long long *buffer, int length);
static void make_reduce(enum reduction by, struct value root, struct value value, long long *result);

// ---- The rank program ----

"#;
