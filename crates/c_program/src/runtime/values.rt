//! The part of the C text that computes values.

/// Exact arithmetic of 64 bits, with its faults, and the statements that set variables.
pub(crate) const VALUES: &str = r#"
// ---- What is the same for every program ----

#include <limits.h>
#include <mpi.h>
#include <stdio.h>
#include <stdlib.h>
#include <string.h>

enum fault { OUT_OF_RANGE = 1, ZERO_DIVIDE, BAD_INDEX, BAD_RANK, BAD_TAG, TOO_LONG, OTHER_COLLECTIVE };

static void end_rank(int fault);

// ---- Values ----

static struct value number(long long number)
{
    struct value it = { number, 0 };
    return it;
}

static struct value faulty(int fault)
{
    struct value it = { 0, fault };
    return it;
}

// The first of two faults, if there is one.
static int first_fault(struct value left, struct value right)
{
    return left.fault ? left.fault : right.fault;
}

static struct value negative_of(struct value operand)
{
    return difference_of(number(0), operand);
}

static struct value sum_of(struct value left, struct value right)
{
    long long a = left.number, b = right.number;
    if (first_fault(left, right))
        return faulty(first_fault(left, right));
    if (b > 0 ? a > LLONG_MAX - b : a < LLONG_MIN - b)
        return faulty(OUT_OF_RANGE);
    return number(a + b);
}

static struct value difference_of(struct value left, struct value right)
{
    long long a = left.number, b = right.number;
    if (first_fault(left, right))
        return faulty(first_fault(left, right));
    if (b > 0 ? a < LLONG_MIN + b : a > LLONG_MAX + b)
        return faulty(OUT_OF_RANGE);
    return number(a - b);
}

// Whether a product is in range. In C99 a quotient is cut toward zero.
static int is_product_in_range(long long a, long long b)
{
    if (a == 0 || b == 0)
        return 1;
    if (a > 0)
        return b > 0 ? a <= LLONG_MAX / b : b >= LLONG_MIN / a;
    return b > 0 ? a >= LLONG_MIN / b : b >= LLONG_MAX / a;
}

static struct value product_of(struct value left, struct value right)
{
    if (first_fault(left, right))
        return faulty(first_fault(left, right));
    if (!is_product_in_range(left.number, right.number))
        return faulty(OUT_OF_RANGE);
    return number(left.number * right.number);
}

// The fault of a division, which a quotient and its remainder share.
static int division_fault(struct value left, struct value right)
{
    if (first_fault(left, right))
        return first_fault(left, right);
    if (right.number == 0)
        return ZERO_DIVIDE;
    return left.number == LLONG_MIN && right.number == -1 ? OUT_OF_RANGE : 0;
}

static struct value quotient_of(struct value left, struct value right)
{
    int fault = division_fault(left, right);
    return fault ? faulty(fault) : number(left.number / right.number);
}

static struct value remainder_of(struct value left, struct value right)
{
    int fault = division_fault(left, right);
    return fault ? faulty(fault) : number(left.number % right.number);
}

// A comparison: 1 if it holds, else 0.
static struct value truth_of(struct value left, struct value right, int holds)
{
    int fault = first_fault(left, right);
    return fault ? faulty(fault) : number(holds);
}

static struct value is_equal(struct value left, struct value right)
{
    return truth_of(left, right, left.number == right.number);
}

static struct value is_unequal(struct value left, struct value right)
{
    return truth_of(left, right, left.number != right.number);
}

static struct value is_less(struct value left, struct value right)
{
    return truth_of(left, right, left.number < right.number);
}

static struct value is_at_most(struct value left, struct value right)
{
    return truth_of(left, right, left.number <= right.number);
}

static struct value is_greater(struct value left, struct value right)
{
    return truth_of(left, right, left.number > right.number);
}

static struct value is_at_least(struct value left, struct value right)
{
    return truth_of(left, right, left.number >= right.number);
}

// The fault of an index, if there is one.
static int index_fault(int length, struct value index)
{
    if (index.fault)
        return index.fault;
    return index.number < 0 || index.number >= length ? BAD_INDEX : 0;
}

static struct value item_of(const long long *array, int length, struct value index)
{
    int fault = index_fault(length, index);
    return fault ? faulty(fault) : number(array[index.number]);
}

static struct pattern any(void)
{
    struct pattern it = { 1, { 0, 0 } };
    return it;
}

static struct pattern exactly(struct value value)
{
    struct pattern it = { 0, { 0, 0 } };
    it.value = value;
    return it;
}

// ---- Statements within a rank ----

// The number of a value; a fault ends the rank.
static long long number_in(struct value value)
{
    if (value.fault)
        end_rank(value.fault);
    return value.number;
}

static void declare(long long *buffer, int length)
{
    memset(buffer, 0, (size_t) length * sizeof *buffer);
}

static void set_variable(long long *variable, struct value value)
{
    *variable = number_in(value);
}

// The index is checked before the value is looked at.
static void set_item(long long *array, int length, struct value index, struct value value)
{
    int fault = index_fault(length, index);
    if (fault)
        end_rank(fault);
    array[index.number] = number_in(value);
}

static int is_nonzero(struct value test)
{
    return number_in(test) != 0;
}
"#;
