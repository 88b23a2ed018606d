//! Names that other languages know, in the places of names, steps and files, and what is meant by
//! them.

/// A name, and what the message says of it where nothing is called by it.
static NAMES: &str = "\
None: write `nil`
undefined: write `nil`
NaN: write `nil`
loop: inside a `for` write `forloop`
forloop: it has a value inside a `for` alone
tablerowloop: inside a `tablerow` write `tablerow`
this: inside a `for` write the name that the loop gives its item
item: the loop is written `{% for item in list %}`
index: inside a `for` write `forloop.index`
else: it is a tag, `{% else %}`
elsif: it is a tag, `{% elsif a %}`
end: a block ends by its own tag, as `{% endif %}` or `{% endfor %}`
endif: it is a tag, `{% endif %}`
endfor: it is a tag, `{% endfor %}`
endunless: it is a tag, `{% endunless %}`
endcase: it is a tag, `{% endcase %}`
endcapture: it is a tag, `{% endcapture %}`
break: it is a tag, `{% break %}`
continue: it is a tag, `{% continue %}`, and `offset:` takes a number
default: the last part of a `case` is `{% else %}`
include: the values that a partial is handed stand under their own names
page: it comes with the data; front matter isn't read
post: it comes with the data; front matter isn't read
site: it comes with the data, as all names do
content: it comes with the data, as all names do
layout: it comes with the data; front matter isn't read
paginator: it comes with the data, as all names do
shop: it comes with the data, as all names do
cart: it comes with the data, as all names do
customer: it comes with the data, as all names do
collection: it comes with the data, as all names do
collections: it comes with the data, as all names do
settings: it comes with the data, as all names do
section: it comes with the data, as all names do
request: it comes with the data, as all names do
content_for_header: it comes with the data, as all names do
content_for_layout: it comes with the data, as all names do
now: the date comes with the data
today: the date comes with the data
";

/// A step that other languages take, and the filter that does the same here, or `size`, which is a
/// step too.
static STEPS: &str = "\
length: size
count: size
len: size
upcase: upcase
upper: upcase
uppercase: upcase
toUpperCase: upcase
downcase: downcase
lower: downcase
lowercase: downcase
toLowerCase: downcase
capitalize: capitalize
strip: strip
trim: strip
split: split
join: join
sort: sort
reverse: reverse
uniq: uniq
map: map
where: where
round: round
floor: floor
ceil: ceil
abs: abs
escape: escape
append: append
prepend: prepend
replace: replace
remove: remove
slice: slice
truncate: truncate
date: date
strftime: date
";

/// What a file's name often ends with.
static SUFFIXES: [&str; 9] = [
    "html", "htm", "liquid", "md", "txt", "css", "js", "json", "xml",
];

/// What the message says of a name that another language knows.
pub(crate) fn name_meant(name: &str) -> Option<&'static str> {
    meaning_in(NAMES, name)
}

/// Whether this is said of a name that comes with the data.
pub(crate) fn is_of_data(meaning: &str) -> bool {
    meaning.starts_with("it comes with the data")
}

/// The filter that is meant by a step of another language.
pub(crate) fn filter_meant(step: &str) -> Option<&'static str> {
    meaning_in(STEPS, step)
}

/// Whether a step is likely the suffix of a file.
pub(crate) fn is_file_suffix(step: &str) -> bool {
    SUFFIXES.contains(&step)
}

/// What a table has for a name. Each of its lines is a name, and what stands for it.
fn meaning_in(table: &'static str, name: &str) -> Option<&'static str> {
    for line in table.lines() {
        match line.split_once(": ") {
            Some((known, meaning)) if known == name => return Some(meaning),
            _ => {}
        }
    }
    None
}
