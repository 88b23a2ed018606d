//! Habits in tags.

/// Where the name of a tag is wanted.
pub static NAME: &str = "\
¦%¦a tag begins with `{%`, with one `%`
¦#¦a comment is written `{% comment %}text{% endcomment %}`
¦//¦a comment is written `{% comment %}text{% endcomment %}`
¦/*¦a comment is written `{% comment %}text{% endcomment %}`
¦!--¦a comment is written `{% comment %}text{% endcomment %}`
¦/¦an end is written as `{% endif %}`
¦=¦`{%= a %}` is written `{{ a }}`
";

/// In any tag, after its name.
pub static TAG: &str = "\
¦{{¦inside a tag a name stands without `{{` and `}}`
¦{%¦the tag before this `{%` has no `%}`
¦}}¦a tag ends with `%}`, and not with `}}`
¦-}}¦a tag ends with `-%}`, and not with `-}}`
¦}¦a tag ends with `%}`
¦% }¦a tag ends with `%}`, without a space in it
";

/// In an `else`.
pub static ELSE: &str = "\
^¦if¦`else if` is written `elsif`
";

/// Before the value of an `assign`.
pub static SETTING: &str = "\
¦==¦`assign` has one `=`
¦:¦`assign` has a `=` after the name
";

/// In an `assign`.
pub static ASSIGN: &str = "\
¦+=¦`a += 1` is written `{% assign a = a | plus: 1 %}`
¦-=¦`a -= 1` is written `{% assign a = a | minus: 1 %}`
¦++¦`a++` is written `{% assign a = a | plus: 1 %}`
¦,¦an `assign` sets one name
¦;¦`;` isn't known; a tag ends with `%}`, and arguments have a `,` between them
";

/// In `for` and `tablerow`.
pub static LOOP: &str = "\
¦of¦`of` is written `in`
¦as¦a loop is written `{% for item in list %}`
¦to¦numbers are counted by a range, as `{% for i in (1..5) %}`
¦;¦a loop is written `{% for i in list %}`, and over numbers `{% for i in (1..5) %}`
¦|¦a loop has no filters; `assign` the filtered list before it
¦,¦a loop has one name, and no `,` before its parts; a pair of a map is `pair[0]` and `pair[1]`
each¦¦`for each` is written `for`
¦sort¦a loop doesn't sort; `assign` the sorted list before it, with `| sort: 'name'`
¦sort_by¦a loop doesn't sort; `assign` the sorted list before it, with `| sort: 'name'`
¦sorted¦a loop doesn't sort; `assign` the sorted list before it, with `| sort: 'name'`
¦order¦a loop doesn't sort; `assign` the sorted list before it, with `| sort: 'name'`
¦order_by¦a loop doesn't sort; `assign` the sorted list before it, with `| sort: 'name'`
¦orderby¦a loop doesn't sort; `assign` the sorted list before it, with `| sort: 'name'`
¦where¦a loop takes each item; `assign` the others before it, with `| where: 'name'`
¦max¦the number of items is a `limit`, as `limit: 2`
¦take¦the number of items is a `limit`, as `limit: 2`
¦first¦the number of items is a `limit`, as `limit: 2`
¦count¦the number of items is a `limit`, as `limit: 2`
¦skip¦the items to leave out are an `offset`, as `offset: 2`
¦start¦the items to leave out are an `offset`, as `offset: 2`
¦reverse¦`reverse` is written `reversed`
reversed¦:¦`reversed` has no value: write it alone
¦:¦a loop is written `{% for item in list %}`, without `:`
:¦%}¦a value is wanted after `:`, as `limit: 2`
:¦-%}¦a value is wanted after `:`, as `limit: 2`
limit¦¦a part of a loop has a `:`, as `limit: 2`
offset¦¦a part of a loop has a `:`, as `offset: 2`
cols¦¦a part of a loop has a `:`, as `cols: 2`
¦=¦a loop is written `{% for i in list %}`, and over numbers `{% for i in (1..5) %}`
¦cols¦`cols` is a part of a `tablerow`
¦reversed¦`reversed` is a part of a `for`
";

/// In `include` and `render`.
pub static PARTIAL: &str = "\
¦/¦the name of a partial stands in quotes, as `{% render 'a/b' %}`
¦|¦a partial is handed values without filters; `assign` the filtered value before it
:¦%}¦a value is wanted after `:`, as `name: value`
:¦-%}¦a value is wanted after `:`, as `name: value`
¦,¦no `,` stands here; an `include` has none after the partial's name
¦=¦a value follows a `:`, as `name: value`
ignore¦¦a partial that is missing is a fault; leave `ignore missing` out
with¦context¦leave `with context` out: an `include` sees every name
if¦¦a condition stands in a tag of its own, as `{% if a %}`
unless¦¦a condition stands in a tag of its own, as `{% unless a %}`
with¦¦`with` is written `{% render 'name' with value as name %}`
for¦¦`for` is written `{% render 'name' for list as name %}`
";

/// In other tags, after their names.
pub static OTHER: &str = "\
¦==¦a comparison stands in a condition, as `{% if a == b %}`
¦=¦a name is set by an `assign`, as `{% assign a = 1 %}`
¦by¦a counter moves by 1; `{% assign a = a | plus: 2 %}` adds another number
¦>¦a comparison stands in a condition, as `{% if a > b %}`
¦<¦a comparison stands in a condition, as `{% if a < b %}`
¦>=¦a comparison stands in a condition, as `{% if a >= b %}`
¦<=¦a comparison stands in a condition, as `{% if a <= b %}`
";
