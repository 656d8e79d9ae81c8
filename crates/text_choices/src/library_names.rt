//! The names of the library: the functions of C99's library, and those besides that gcc and clang know in their GNU
//! modes.
ghost use Rattle.std.specs.Prelude.{◌≡◌, ◌↔◌, ◌≤◌, Contains, IsTrue, bytes_eq, length};
ghost use Rattle.std.specs.List.{list_any, prefix_len};
ghost use Rattle.text_choices.specs.Library.{library};
ghost use Rattle.text_choices.specs.reading.Words.{is_no_blank, words_of};

// The names, with one blank between two of them.
static LIBRARY: &[u8] = b"\
    _Exit _exit _longjmp _setjmp abort abs acos acosf acosh acoshf acoshl acosl aligned_alloc \
    alloca asctime asin asinf asinh asinhf asinhl asinl atan atan2 atan2f atan2l atanf atanh \
    atanhf atanhl atanl atexit atof atoi atol atoll bcmp bcopy bsearch btowc bzero cabs cabsf \
    cabsl cacos cacosf cacosh cacoshf cacoshl cacosl calloc carg cargf cargl casin casinf \
    casinh casinhf casinhl casinl catan catanf catanh catanhf catanhl catanl cbrt cbrtf cbrtl \
    ccos ccosf ccosh ccoshf ccoshl ccosl ceil ceilf ceill cexp cexpf cexpl cimag cimagf cimagl \
    clearerr clock clog clogf clogl conj conjf conjl copysign copysignf copysignl cos cosf cosh \
    coshf coshl cosl cpow cpowf cpowl cproj cprojf cprojl creal crealf creall csin csinf csinh \
    csinhf csinhl csinl csqrt csqrtf csqrtl ctan ctanf ctanh ctanhf ctanhl ctanl ctime \
    dcgettext dgettext difftime div drem dremf dreml erf erfc erfcf erfcl erff erfl errno execl \
    execle execlp execv execve execvp exit exp exp10 exp10f exp10l exp2 exp2f exp2l expf expl \
    expm1 expm1f expm1l fabs fabsf fabsl fclose fdim fdimf fdiml feclearexcept fegetenv \
    fegetexceptflag fegetround feholdexcept feof feraiseexcept ferror fesetenv fesetexceptflag \
    fesetround fetestexcept feupdateenv fflush ffs ffsl ffsll fgetc fgetpos fgets fgetwc fgetws \
    floor floorf floorl fma fmaf fmal fmax fmaxf fmaxl fmin fminf fminl fmod fmodf fmodl fopen \
    fork fprintf fprintf_unlocked fputc fputs fputs_unlocked fputwc fputws fread free freopen \
    frexp frexpf frexpl fscanf fseek fsetpos ftell fwide fwprintf fwrite fwscanf gamma gamma_r \
    gammaf gammaf_r gammal gammal_r getc getchar getcontext getenv gets gettext getwc getwchar \
    gmtime hypot hypotf hypotl ilogb ilogbf ilogbl imaxabs imaxdiv index isalnum isalpha \
    isascii isblank iscntrl isdigit isgraph islower isprint ispunct isspace isupper iswalnum \
    iswalpha iswblank iswcntrl iswctype iswdigit iswgraph iswlower iswprint iswpunct iswspace \
    iswupper iswxdigit isxdigit j0 j0f j0l j1 j1f j1l jn jnf jnl labs ldexp ldexpf ldexpl ldiv \
    lgamma lgamma_r lgammaf lgammaf_r lgammal lgammal_r llabs lldiv llrint llrintf llrintl \
    llround llroundf llroundl localeconv localtime log log10 log10f log10l log1p log1pf log1pl \
    log2 log2f log2l logb logbf logbl logf logl longjmp lrint lrintf lrintl lround lroundf \
    lroundl malloc mblen mbrlen mbrtowc mbsinit mbsrtowcs mbstowcs mbtowc memccpy memchr memcmp \
    memcpy memmove mempcpy memset mktime modf modff modfl nan nanf nanl nearbyint nearbyintf \
    nearbyintl nextafter nextafterf nextafterl nexttoward nexttowardf nexttowardl perror \
    posix_memalign pow pow10 pow10f pow10l powf powl printf printf_unlocked putc putchar \
    putchar_unlocked puts puts_unlocked putwc putwchar qsort raise rand realloc remainder \
    remainderf remainderl remove remquo remquof remquol rename rewind rindex rint rintf rintl \
    round roundeven roundevenf roundevenl roundf roundl savectx scalb scalbf scalbl scalbln \
    scalblnf scalblnl scalbn scalbnf scalbnl scanf setbuf setjmp setlocale setvbuf siglongjmp \
    signal signbit signbitf signbitl significand significandf significandl sigsetjmp sin sincos \
    sincosf sincosl sinf sinh sinhf sinhl sinl snprintf sprintf sqrt sqrtf sqrtl srand sscanf \
    stpcpy stpncpy strcasecmp strcat strchr strcmp strcoll strcpy strcspn strdup strerror \
    strfmon strftime strlcat strlcpy strlen strncasecmp strncat strncmp strncpy strndup strnlen \
    strpbrk strrchr strspn strstr strtod strtof strtoimax strtok strtol strtold strtoll strtoul \
    strtoull strtoumax strxfrm swprintf swscanf system tan tanf tanh tanhf tanhl tanl tgamma \
    tgammaf tgammal time tmpfile tmpnam toascii tolower toupper towctrans towlower towupper \
    trunc truncf truncl ungetc ungetwc vfork vfprintf vfscanf vfwprintf vfwscanf vprintf vscanf \
    vsnprintf vsprintf vsscanf vswprintf vswscanf vwprintf vwscanf wcrtomb wcscat wcschr wcscmp \
    wcscoll wcscpy wcscspn wcsftime wcslen wcsncat wcsncmp wcsncpy wcspbrk wcsrchr wcsrtombs \
    wcsspn wcsstr wcstod wcstof wcstoimax wcstok wcstol wcstold wcstoll wcstombs wcstoul \
    wcstoull wcstoumax wcsxfrm wctob wctomb wctrans wctype wmemchr wmemcmp wmemcpy wmemmove \
    wmemset wprintf wscanf y0 y0f y0l y1 y1f y1l yn ynf ynl";

// How many bytes the first word of a text has.
fn word_length(text: &[u8]) -> usize
    ensures value { result ≡ prefix_len is_no_blank text.now }
    ensures within { result ≤ length text.now }
{
    for (i, byte) in text.iter().enumerate() {
        if *byte == b' ' {
            return i;
        }
    }
    text.len()
}

// Whether a name is one of the words of a text.
fn is_among(words: &[u8], name: &[u8]) -> bool
    ensures { result ≡ list_any (bytes_eq name.now) (words_of words.now) }
{
    let mut at = 0;
    while at < words.len() {
        let rest = &words[at..];
        let length = word_length(rest);
        if name == &rest[..length] {
            return true;
        }
        at += length + 1;
    }
    false
}

/// Whether a name is one of the library.
pub(crate) fn is_of_library(name: &[u8]) -> bool
    ensures { IsTrue result ↔ Contains library name.now }
{
    is_among(LIBRARY, name)
}
