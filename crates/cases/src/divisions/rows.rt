// The table of outside answers: remainders and S-polynomials computed by Singular 4.3.1, and once more by Macaulay2 1.21.
// `tools/outside_vectors.sing` prints the rows.
// By the size of the field.
#[derive(Clone, Copy, PartialEq, Eq, Debug)]
pub enum Coefficients {
    Residues(u16),
    Bits(u16),
}

#[derive(Clone, Copy, PartialEq, Eq, Debug)]
pub enum Order {
    Lex,
    Graded,
    Reverse,
}

#[derive(Clone, Copy, PartialEq, Eq, Debug)]
pub enum Question<'a> {
    Remainder {
        dividend: &'a str,
        elements: &'a [&'a str],
    },
    // the S-polynomial of g and h
    Pair {
        g: &'a str,
        h: &'a str,
    },
}

// Polynomials as texts such as 3a2b + 5: a coefficient's code and the exponents, unless they are 1.
#[derive(Clone, Copy, PartialEq, Eq, Debug)]
pub struct Row<'a> {
    pub coefficients: Coefficients,
    pub order: Order,
    pub variables: usize,
    pub question: Question<'a>,
    pub answer: &'a str,
}

// Where generators of an ideal stand before a row, its elements are a Gröbner basis of that ideal. Other rows say by what they divide.
pub const ROWS: [Row<'static>; 36] = [
    // (ab + c, a² + a, b² + b, c² + c): three tabs that are on or off
    Row {
        coefficients: Coefficients::Residues(2),
        order: Order::Lex,
        variables: 3,
        question: Question::Remainder {
            dividend: "a3b2 + a2c + ab2c + b + 1",
            elements: &["a2 + a", "ab + c", "ac + c", "b2 + b", "bc + c", "c2 + c"],
        },
        answer: "b + c + 1",
    },
    // (a + b + c + d, ab + bc + cd + da, abc + bcd + cda + dab, abcd + 1), the cyclic system in four variables
    Row {
        coefficients: Coefficients::Residues(2),
        order: Order::Reverse,
        variables: 4,
        question: Question::Remainder {
            dividend: "a3b2 + a2b3 + ab4 + b5 + a3c2 + a2bc2 + ab2c2 + b3c2 + abcd2 + c3d2 + 1",
            elements: &[
                "c2d4 + bc + bd + cd",
                "c3d2 + c2d3 + c + d",
                "bd4 + d5 + b + d",
                "bcd2 + c2d2 + bd3 + cd3 + d4 + 1",
                "bc2 + c2d + bd2 + d3",
                "b2 + d2",
                "a + b + c + d",
            ],
        },
        answer: "c5 + c4d + c2d3 + cd4 + d5 + c + 1",
    },
    // (a⁵ + a² + 2a + 1, a⁴ + a³ + a + 2) in one variable
    Row {
        coefficients: Coefficients::Residues(3),
        order: Order::Lex,
        variables: 1,
        question: Question::Remainder {
            dividend: "a7 + a6 + 2a5 + a + 2",
            elements: &["2a2 + 2"],
        },
        answer: "2a + 1",
    },
    // (a² + b² + c² + 2, ab + bc + ca, abc + 1)
    Row {
        coefficients: Coefficients::Residues(3),
        order: Order::Graded,
        variables: 3,
        question: Question::Remainder {
            dividend: "a3b2 + 2ab2c2 + b4c + a2 + 2c",
            elements: &[
                "2b2c2 + b + c",
                "2c4 + c2 + 2a + 2b + c",
                "2ac2 + 2bc2 + 1",
                "2b3 + 2b2c + 2bc2 + 2c3 + b + c + 2",
                "2a2 + 2b2 + 2c2 + 1",
                "2ab + 2ac + 2bc",
            ],
        },
        answer: "b2c + ac + b2 + bc + 2c + 2",
    },
    // (a² + b² + 4, ab + 3), a circle and a hyperbola
    Row {
        coefficients: Coefficients::Residues(5),
        order: Order::Lex,
        variables: 2,
        question: Question::Remainder {
            dividend: "a4b + 3a2b3 + 2ab5 + a + 4",
            elements: &["2a + b3 + 4b", "3b4 + 2b2 + 2"],
        },
        answer: "b3 + 4b2 + 2b + 3",
    },
    // the same, a combination of the generators
    Row {
        coefficients: Coefficients::Residues(5),
        order: Order::Lex,
        variables: 2,
        question: Question::Remainder {
            dividend: "a5 + a3b2 + 4a3 + 3a2b3 + 2a2b + 4ab2 + 4ab + 2b3 + 3b + 2",
            elements: &["2a + b3 + 4b", "3b4 + 2b2 + 2"],
        },
        answer: "0",
    },
    // (a + 6c³, b + 6c²), the twisted cubic
    Row {
        coefficients: Coefficients::Residues(7),
        order: Order::Lex,
        variables: 3,
        question: Question::Remainder {
            dividend: "3a2b + 5ab2c + 6a + bc4 + 2",
            elements: &["2a + 5c3", "3b + 4c2"],
        },
        answer: "c8 + c6 + 6c3 + 2",
    },
    // (a + 2b + 2c + 2d + 6, a² + 2b² + 2c² + 2d² + 6a, 2ab + 2bc + 2cd + 6b, b² + 2ac + 2bd + 6c), Katsura's system
    Row {
        coefficients: Coefficients::Residues(7),
        order: Order::Reverse,
        variables: 4,
        question: Question::Remainder {
            dividend: "d5 + a2bc + 3c4 + 5b2cd + a",
            elements: &[
                "2c3 + 2c2 + 6bd + 4b + 3c",
                "3bd2 + 6c2 + 5bd + 6d2 + 3b + 2c + 5d",
                "4d3 + 3c2 + 5bd + 2d2 + b + 2c + 2d",
                "5b2 + 4c2 + 4bd + 2d2 + 4b + 4d",
                "6bc + 3c2 + bd + 2b + c",
                "2cd + 3d2 + 3b + 5c + 6d",
                "3a + 6b + 6c + 6d + 4",
            ],
        },
        answer: "c2 + 3bd + 3d2 + b + 2c + 6d + 1",
    },
    // (a + b + c, ab + bc + ca, abc + 10), the cyclic system in three variables
    Row {
        coefficients: Coefficients::Residues(11),
        order: Order::Graded,
        variables: 3,
        question: Question::Remainder {
            dividend: "7a4b + 3a2b2c + 10b4 + c3 + 5",
            elements: &["2c3 + 9", "3b2 + 3bc + 3c2", "4a + 4b + 4c"],
        },
        answer: "10c2 + 10b + 6",
    },
    // (3a² + bc + 1, 5b² + ac + 4, 7c² + ab + 2)
    Row {
        coefficients: Coefficients::Residues(11),
        order: Order::Reverse,
        variables: 3,
        question: Question::Remainder {
            dividend: "a3b + 8b3c + 2ac3 + abc + 6a + 9",
            elements: &[
                "2c4 + 4ac + 5bc + 6c2 + 7",
                "3ac2 + 5a + b + 8c",
                "4bc2 + a + 3b + 10c",
                "5a2 + 9bc + 9",
                "6ab + 9c2 + 1",
                "7b2 + 8ac + 10",
            ],
        },
        answer: "4c3 + ac + 4bc + 6a + 9c + 2",
    },
    // (a³ + 29ab, a²b + 29b² + a), a textbook's generators
    Row {
        coefficients: Coefficients::Residues(31),
        order: Order::Graded,
        variables: 2,
        question: Question::Remainder {
            dividend: "12a4 + 5a2b2 + 9ab + 23b2 + 4b + 1",
            elements: &["2a2", "3ab", "4b2 + 29a"],
        },
        answer: "27a + 4b + 1",
    },
    // (ae + 30bd, af + 30cd, bf + 30ce), the minors of a matrix with the rows a b c and d e f
    Row {
        coefficients: Coefficients::Residues(31),
        order: Order::Reverse,
        variables: 6,
        question: Question::Remainder {
            dividend: "9bcde + 3a2ef + 14abf2 + cdf + 28f3",
            elements: &["2bd + 29ae", "3cd + 28af", "4ce + 27bf"],
        },
        answer: "3a2ef + 9abef + 14abf2 + af2 + 28f3",
    },
    // 24 variables: (a + 5x, b² + 4v, w² + 2)
    Row {
        coefficients: Coefficients::Residues(7),
        order: Order::Lex,
        variables: 24,
        question: Question::Remainder {
            dividend: "3a2b3w3 + 2abvw2 + 5w",
            elements: &["2a + 3x", "3b2 + 5v", "4w2 + 1"],
        },
        answer: "5bvwx2 + 6bvx + 5w",
    },
    // (a² + tb, ab + 1)
    Row {
        coefficients: Coefficients::Bits(4),
        order: Order::Lex,
        variables: 2,
        question: Question::Remainder {
            dividend: "3a3b + 2a2b2 + ab3 + 2",
            elements: &["2a + 3b2", "3b3 + 2"],
        },
        answer: "b2 + b",
    },
    // (a² + tbc, b² + (t+1)ac + 1)
    Row {
        coefficients: Coefficients::Bits(4),
        order: Order::Graded,
        variables: 3,
        question: Question::Remainder {
            dividend: "2a3b + a2c2 + 3ab2c + 2b3 + c",
            elements: &[
                "2b4 + bc3 + 2",
                "3ab2 + 3bc2 + 3a",
                "2a2 + 3bc",
                "3ac + b2 + 1",
            ],
        },
        answer: "2bc3 + 2b3 + c",
    },
    // (a + tb² + c, b³ + (t²+1)c + t), a combination of these
    Row {
        coefficients: Coefficients::Bits(8),
        order: Order::Lex,
        variables: 3,
        question: Question::Remainder {
            dividend: "a2 + 2ab2 + 4ab + ac + 3b3c + 3b3 + 4bc + 4c2 + 6c",
            elements: &["2a + 4b2 + 2c", "3b3 + 4c + 6"],
        },
        answer: "0",
    },
    // (ta²b + b², (t²+t)ab² + a)
    Row {
        coefficients: Coefficients::Bits(8),
        order: Order::Reverse,
        variables: 2,
        question: Question::Remainder {
            dividend: "5a3b2 + 2a4 + 4b4 + ab + 7",
            elements: &["2a3 + ab", "3a2b + 4b2", "4ab2 + 7a", "5b3 + 3a2"],
        },
        answer: "3ab + 2b2 + 7",
    },
    // (a³ + tb, (t³+1)ab + t²)
    Row {
        coefficients: Coefficients::Bits(16),
        order: Order::Graded,
        variables: 2,
        question: Question::Remainder {
            dividend: "10a4b + 4a2b3 + 13b3 + 2a + 1",
            elements: &["2b3 + 12a", "3a2 + 4b2", "4ab + 6"],
        },
        answer: "10a + 8b + 1",
    },
    // (ab + tc², bc + (t³+t)a, c³ + t²b)
    Row {
        coefficients: Coefficients::Bits(16),
        order: Order::Reverse,
        variables: 3,
        question: Question::Remainder {
            dividend: "9a2bc + 2ab2c + 6b2c2 + ac3 + 15c",
            elements: &[
                "2b3 + 6a",
                "3ac2 + 15b2",
                "4c3 + 3b",
                "5a2 + 4b",
                "6ab + 12c2",
                "7bc + 3a",
            ],
        },
        answer: "3b2 + 4b + 15c",
    },
    // a textbook's division, by (ab + 1, b² − 1)
    Row {
        coefficients: Coefficients::Residues(7),
        order: Order::Lex,
        variables: 2,
        question: Question::Remainder {
            dividend: "a2b + ab2 + a + b3",
            elements: &["ab + 1", "b2 + 6"],
        },
        answer: "0",
    },
    // the same by (b² − 1, ab + 1)
    Row {
        coefficients: Coefficients::Residues(7),
        order: Order::Lex,
        variables: 2,
        question: Question::Remainder {
            dividend: "a2b + ab2 + a + b3",
            elements: &["b2 + 6", "ab + 1"],
        },
        answer: "a + b",
    },
    // a textbook's division, by (a²b − b², a⁴b² − b²)
    Row {
        coefficients: Coefficients::Residues(5),
        order: Order::Lex,
        variables: 2,
        question: Question::Remainder {
            dividend: "a5b",
            elements: &["a2b + 4b2", "a4b2 + 4b2"],
        },
        answer: "ab3",
    },
    // a textbook's division, by (a², ab + b²)
    Row {
        coefficients: Coefficients::Residues(31),
        order: Order::Reverse,
        variables: 2,
        question: Question::Remainder {
            dividend: "a2b",
            elements: &["a2", "ab + b2"],
        },
        answer: "0",
    },
    // the same by (ab + b², a²)
    Row {
        coefficients: Coefficients::Residues(31),
        order: Order::Reverse,
        variables: 2,
        question: Question::Remainder {
            dividend: "a2b",
            elements: &["ab + b2", "a2"],
        },
        answer: "b3",
    },
    // the same with coefficients: ta²b by (tab + tb², (t+1)a²)
    Row {
        coefficients: Coefficients::Bits(4),
        order: Order::Graded,
        variables: 2,
        question: Question::Remainder {
            dividend: "2a2b",
            elements: &["2ab + 2b2", "3a2"],
        },
        answer: "2b3",
    },
    // a² + b² by a + 1: the division goes on after a term that nothing divides
    Row {
        coefficients: Coefficients::Residues(11),
        order: Order::Graded,
        variables: 2,
        question: Question::Remainder {
            dividend: "a2 + b2",
            elements: &["a + 1"],
        },
        answer: "b2 + 1",
    },
    // a textbook's: 2a³b + b² and 3a²b³ − 2ab
    Row {
        coefficients: Coefficients::Residues(7),
        order: Order::Lex,
        variables: 2,
        question: Question::Pair {
            g: "2a3b + b2",
            h: "3a2b3 + 5ab",
        },
        answer: "3a2b + 4b4",
    },
    // a textbook's: a²bc − b⁴ and 2abc² − b²c²
    Row {
        coefficients: Coefficients::Residues(11),
        order: Order::Reverse,
        variables: 3,
        question: Question::Pair {
            g: "10b4 + a2bc",
            h: "2abc2 + 10b2c2",
        },
        answer: "6b5c2 + 10a3bc3",
    },
    // a textbook's: a³b² − a²b³ + a and 3a⁴b + b²
    Row {
        coefficients: Coefficients::Residues(31),
        order: Order::Graded,
        variables: 2,
        question: Question::Pair {
            g: "a3b2 + 30a2b3 + a",
            h: "3a4b + b2",
        },
        answer: "30a3b3 + 10b3 + a2",
    },
    // equal leading monomials
    Row {
        coefficients: Coefficients::Residues(5),
        order: Order::Graded,
        variables: 2,
        question: Question::Pair {
            g: "2a2b + 3ab + 1",
            h: "3a2b + b2",
        },
        answer: "4ab + 3b2 + 3",
    },
    // leading monomials with no variable in common
    Row {
        coefficients: Coefficients::Residues(3),
        order: Order::Lex,
        variables: 3,
        question: Question::Pair {
            g: "2a2 + bc",
            h: "2b3 + c + 1",
        },
        answer: "a2c + a2 + 2b4c",
    },
    // one leading monomial divides the other
    Row {
        coefficients: Coefficients::Residues(31),
        order: Order::Reverse,
        variables: 4,
        question: Question::Pair {
            g: "17a3bc + 4d2",
            h: "23ab + 30c + 5",
        },
        answer: "27a2c2 + 20a2c + 13d2",
    },
    // one is a multiple of the other
    Row {
        coefficients: Coefficients::Residues(31),
        order: Order::Reverse,
        variables: 4,
        question: Question::Pair {
            g: "2ab + 6d",
            h: "20ab + 29d",
        },
        answer: "0",
    },
    // ta²b + b + 1 and (t+1)ab² + ta
    Row {
        coefficients: Coefficients::Bits(4),
        order: Order::Lex,
        variables: 2,
        question: Question::Pair {
            g: "2a2b + b + 1",
            h: "3ab2 + 2a",
        },
        answer: "3a2 + 3b2 + 3b",
    },
    // (t²+t)a³ + tb² + 1 and (t²+1)a²b + ta
    Row {
        coefficients: Coefficients::Bits(8),
        order: Order::Graded,
        variables: 2,
        question: Question::Pair {
            g: "6a3 + 2b2 + 1",
            h: "5a2b + 2a",
        },
        answer: "6b3 + 4a2 + 3b",
    },
    // (t³+1)a²b + tc and (t³+t²+1)ab²c + t²b + t³
    Row {
        coefficients: Coefficients::Bits(16),
        order: Order::Reverse,
        variables: 3,
        question: Question::Pair {
            g: "9a2b + 2c",
            h: "13ab2c + 4b + 8",
        },
        answer: "4bc2 + 3ab + 6a",
    },
];
