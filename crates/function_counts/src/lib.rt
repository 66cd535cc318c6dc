// How many arguments a function takes, by its index.
#![tactic(auto)]

ghost use Rattle.std.specs.Prelude.{◌≡◌};
ghost use Rattle.function_counts.specs.Counts.{counts_of};

// The counts of a function's arguments.
#[derive(Clone, Copy, Debug, PartialEq, Eq)]
pub struct Counts {
    pub least: u8,
    pub greatest: u8,
}

// The least and the greatest count by index, the least above the greatest where there is no function: 736 bytes, where an Option would take up half as much again.
static COUNTS: [(u8, u8); 368] = [
    (1, 30), // COUNT
    (1, 3), // IF
    (1, 1), // ISNA
    (1, 1), // ISERROR
    (1, 30), // SUM
    (1, 30), // AVERAGE
    (1, 30), // MIN
    (1, 30), // MAX
    (0, 1), // ROW
    (0, 1), // COLUMN
    (0, 0), // NA
    (2, 30), // NPV
    (1, 30), // STDEV
    (1, 2), // DOLLAR
    (1, 3), // FIXED
    (1, 1), // SIN
    (1, 1), // COS
    (1, 1), // TAN
    (1, 1), // ATAN
    (0, 0), // PI
    (1, 1), // SQRT
    (1, 1), // EXP
    (1, 1), // LN
    (1, 1), // LOG10
    (1, 1), // ABS
    (1, 1), // INT
    (1, 1), // SIGN
    (2, 2), // ROUND
    (2, 3), // LOOKUP
    (2, 4), // INDEX
    (2, 2), // REPT
    (3, 3), // MID
    (1, 1), // LEN
    (1, 1), // VALUE
    (0, 0), // TRUE
    (0, 0), // FALSE
    (1, 30), // AND
    (1, 30), // OR
    (1, 1), // NOT
    (2, 2), // MOD
    (3, 3), // DCOUNT
    (3, 3), // DSUM
    (3, 3), // DAVERAGE
    (3, 3), // DMIN
    (3, 3), // DMAX
    (3, 3), // DSTDEV
    (1, 30), // VAR
    (3, 3), // DVAR
    (2, 2), // TEXT
    (1, 4), // LINEST
    (1, 4), // TREND
    (1, 4), // LOGEST
    (1, 4), // GROWTH
    (255, 0),
    (255, 0),
    (255, 0),
    (3, 5), // PV
    (3, 5), // FV
    (3, 5), // NPER
    (3, 5), // PMT
    (3, 6), // RATE
    (3, 3), // MIRR
    (1, 2), // IRR
    (0, 0), // RAND
    (2, 3), // MATCH
    (3, 3), // DATE
    (3, 3), // TIME
    (1, 1), // DAY
    (1, 1), // MONTH
    (1, 1), // YEAR
    (1, 2), // WEEKDAY
    (1, 1), // HOUR
    (1, 1), // MINUTE
    (1, 1), // SECOND
    (0, 0), // NOW
    (1, 1), // AREAS
    (1, 1), // ROWS
    (1, 1), // COLUMNS
    (3, 5), // OFFSET
    (255, 0),
    (255, 0),
    (255, 0),
    (2, 3), // SEARCH
    (1, 1), // TRANSPOSE
    (255, 0),
    (255, 0),
    (1, 1), // TYPE
    (255, 0),
    (255, 0),
    (255, 0),
    (255, 0),
    (255, 0),
    (255, 0),
    (255, 0),
    (255, 0),
    (255, 0),
    (255, 0),
    (2, 2), // ATAN2
    (1, 1), // ASIN
    (1, 1), // ACOS
    (2, 30), // CHOOSE
    (3, 4), // HLOOKUP
    (3, 4), // VLOOKUP
    (255, 0),
    (255, 0),
    (1, 1), // ISREF
    (255, 0),
    (255, 0),
    (255, 0),
    (1, 2), // LOG
    (255, 0),
    (1, 1), // CHAR
    (1, 1), // LOWER
    (1, 1), // UPPER
    (1, 1), // PROPER
    (1, 2), // LEFT
    (1, 2), // RIGHT
    (2, 2), // EXACT
    (1, 1), // TRIM
    (4, 4), // REPLACE
    (3, 4), // SUBSTITUTE
    (1, 1), // CODE
    (255, 0),
    (255, 0),
    (2, 3), // FIND
    (1, 2), // CELL
    (1, 1), // ISERR
    (1, 1), // ISTEXT
    (1, 1), // ISNUMBER
    (1, 1), // ISBLANK
    (1, 1), // T
    (1, 1), // N
    (255, 0),
    (255, 0),
    (255, 0),
    (255, 0),
    (255, 0),
    (255, 0),
    (255, 0),
    (255, 0),
    (1, 1), // DATEVALUE
    (1, 1), // TIMEVALUE
    (3, 3), // SLN
    (4, 4), // SYD
    (4, 5), // DDB
    (255, 0),
    (255, 0),
    (255, 0),
    (1, 2), // INDIRECT
    (255, 0),
    (255, 0),
    (255, 0),
    (255, 0),
    (255, 0),
    (255, 0),
    (255, 0),
    (255, 0),
    (255, 0),
    (255, 0),
    (255, 0),
    (255, 0),
    (255, 0),
    (1, 1), // CLEAN
    (1, 1), // MDETERM
    (1, 1), // MINVERSE
    (2, 2), // MMULT
    (255, 0),
    (4, 6), // IPMT
    (4, 6), // PPMT
    (1, 30), // COUNTA
    (255, 0),
    (255, 0),
    (255, 0),
    (255, 0),
    (255, 0),
    (255, 0),
    (255, 0),
    (255, 0),
    (255, 0),
    (255, 0),
    (255, 0),
    (255, 0),
    (255, 0),
    (1, 30), // PRODUCT
    (1, 1), // FACT
    (255, 0),
    (255, 0),
    (255, 0),
    (255, 0),
    (3, 3), // DPRODUCT
    (1, 1), // ISNONTEXT
    (255, 0),
    (255, 0),
    (1, 30), // STDEVP
    (1, 30), // VARP
    (3, 3), // DSTDEVP
    (3, 3), // DVARP
    (1, 2), // TRUNC
    (1, 1), // ISLOGICAL
    (3, 3), // DCOUNTA
    (255, 0),
    (255, 0),
    (255, 0),
    (255, 0),
    (1, 2), // USDOLLAR
    (2, 3), // FINDB
    (2, 3), // SEARCHB
    (4, 4), // REPLACEB
    (1, 2), // LEFTB
    (1, 2), // RIGHTB
    (3, 3), // MIDB
    (1, 1), // LENB
    (2, 2), // ROUNDUP
    (2, 2), // ROUNDDOWN
    (1, 1), // ASC
    (1, 1), // DBCS
    (2, 3), // RANK
    (255, 0),
    (255, 0),
    (2, 5), // ADDRESS
    (2, 3), // DAYS360
    (0, 0), // TODAY
    (5, 7), // VDB
    (255, 0),
    (255, 0),
    (255, 0),
    (255, 0),
    (1, 30), // MEDIAN
    (1, 30), // SUMPRODUCT
    (1, 1), // SINH
    (1, 1), // COSH
    (1, 1), // TANH
    (1, 1), // ASINH
    (1, 1), // ACOSH
    (1, 1), // ATANH
    (3, 3), // DGET
    (255, 0),
    (255, 0),
    (255, 0),
    (255, 0),
    (255, 0),
    (255, 0),
    (255, 0),
    (255, 0),
    (1, 1), // INFO
    (255, 0),
    (255, 0),
    (4, 5), // DB
    (255, 0),
    (255, 0),
    (255, 0),
    (255, 0),
    (2, 2), // FREQUENCY
    (255, 0),
    (255, 0),
    (1, 30), // User Defined Function
    (255, 0),
    (255, 0),
    (255, 0),
    (255, 0),
    (255, 0),
    (1, 1), // ERROR.TYPE
    (255, 0),
    (255, 0),
    (255, 0),
    (255, 0),
    (255, 0),
    (255, 0),
    (255, 0),
    (1, 30), // AVEDEV
    (3, 5), // BETADIST
    (1, 1), // GAMMALN
    (3, 5), // BETAINV
    (4, 4), // BINOMDIST
    (2, 2), // CHIDIST
    (2, 2), // CHIINV
    (2, 2), // COMBIN
    (3, 3), // CONFIDENCE
    (3, 3), // CRITBINOM
    (1, 1), // EVEN
    (3, 3), // EXPONDIST
    (3, 3), // FDIST
    (3, 3), // FINV
    (1, 1), // FISHER
    (1, 1), // FISHERINV
    (2, 2), // FLOOR
    (4, 4), // GAMMADIST
    (3, 3), // GAMMAINV
    (2, 2), // CEILING
    (4, 4), // HYPGEOMDIST
    (3, 3), // LOGNORMDIST
    (3, 3), // LOGINV
    (3, 3), // NEGBINOMDIST
    (4, 4), // NORMDIST
    (1, 1), // NORMSDIST
    (3, 3), // NORMINV
    (1, 1), // NORMSINV
    (3, 3), // STANDARDIZE
    (1, 1), // ODD
    (2, 2), // PERMUT
    (3, 3), // POISSON
    (3, 3), // TDIST
    (4, 4), // WEIBULL
    (2, 2), // SUMXMY2
    (2, 2), // SUMX2MY2
    (2, 2), // SUMX2PY2
    (2, 2), // CHITEST
    (2, 2), // CORREL
    (2, 2), // COVAR
    (3, 3), // FORECAST
    (2, 2), // FTEST
    (2, 2), // INTERCEPT
    (2, 2), // PEARSON
    (2, 2), // RSQ
    (2, 2), // STEYX
    (2, 2), // SLOPE
    (4, 4), // TTEST
    (3, 4), // PROB
    (1, 30), // DEVSQ
    (1, 30), // GEOMEAN
    (1, 30), // HARMEAN
    (1, 30), // SUMSQ
    (1, 30), // KURT
    (1, 30), // SKEW
    (2, 3), // ZTEST
    (2, 2), // LARGE
    (2, 2), // SMALL
    (2, 2), // QUARTILE
    (2, 2), // PERCENTILE
    (2, 3), // PERCENTRANK
    (1, 30), // MODE
    (2, 2), // TRIMMEAN
    (2, 2), // TINV
    (255, 0),
    (255, 0),
    (255, 0),
    (1, 30), // CONCATENATE
    (2, 2), // POWER
    (255, 0),
    (255, 0),
    (255, 0),
    (255, 0),
    (1, 1), // RADIANS
    (1, 1), // DEGREES
    (2, 30), // SUBTOTAL
    (2, 3), // SUMIF
    (2, 2), // COUNTIF
    (1, 1), // COUNTBLANK
    (255, 0),
    (255, 0),
    (4, 4), // ISPMT
    (3, 3), // DATEDIF
    (1, 1), // DATESTRING
    (2, 2), // NUMBERSTRING
    (1, 2), // ROMAN
    (255, 0),
    (255, 0),
    (255, 0),
    (2, 30), // GETPIVOTDATA
    (1, 2), // HYPERLINK
    (1, 1), // PHONETIC
    (1, 30), // AVERAGEA
    (1, 30), // MAXA
    (1, 30), // MINA
    (1, 30), // STDEVPA
    (1, 30), // VARPA
    (1, 30), // STDEVA
    (1, 30), // VARA
];

// The counts for any index.
#[tactic(auto, using(crate::proofs::Laws::counts_past, crate::proofs::Laws::counts_none, crate::proofs::Laws::counts_there))]
pub fn counts_at(index: u16) -> Option<Counts>
    ensures { result ≡ counts_of index }
{
    let at = usize::from(index);
    if COUNTS.len() <= at {
        return None;
    }
    let (least, greatest) = COUNTS[at];
    if least <= greatest {
        return Some(Counts { least, greatest });
    }
    None
}
